// Entering and leaving folders.
ghost use Rattle.std.specs.Prelude.{◌≡◌, [], ◌∷◌, codes, IfSome};
ghost use Rattle.btr_rack.specs.declared.raw_call.RawCall.TheVariants.{Entered as ChangedTo};
ghost use Rattle.btr_rack.specs.History.{event};
ghost use Rattle.btr_rack.specs.Entry.{IsEntry, IsOf};
ghost use Rattle.btr_rack.specs.Name.{IsGoodName};

use crate::file_id::FileId;
use crate::history::{Call, Events, History};
use crate::raw_call::RawCall;
use std::fs::DirBuilder;
use std::os::unix::fs::DirBuilderExt;
use std::rt::{Env, Files};
use std::{env, fs};

// The owner enters, reads and changes the folder, and nobody else.
const PRIVATE_FOLDER: u32 = 0o700;

/// How an entering or a leaving of a folder went.
#[derive(Drop)]
pub(crate) enum Entry {
    /// The working directory is as it was.
    Refused,
    /// The working directory is another one than was looked at: a folder was moved meanwhile.
    Astray,
    /// The working directory is the folder, by these calls.
    Entered(FileId, History),
}

/// Makes a folder of the folder that is entered, or finds one that is there and is no symbolic link, and enters it.
pub(crate) fn enter(rt: &(impl Files + Env), name: &str) -> Entry
    requires { IsGoodName name.now }
    ensures { IsEntry name.now result }
{
    enter_path(rt, name)
}

/// Makes the folder of a path, or finds one that is there and is no symbolic link, and enters it. One that is made is private.
pub(crate) fn enter_path(rt: &(impl Files + Env), path: &str) -> Entry
    ensures { IsEntry path.now result }
{
    let mut how = DirBuilder::new();
    how.mode(PRIVATE_FOLDER);
    let _ = how.create(rt, path);
    match fs::symlink_metadata(rt, without_slashes(path)) {
        Ok(found) if found.is_dir() => move_to(rt, path, FileId::of(&found)),
        _ => Entry::Refused,
    }
}

/// Leaves a folder to the one above it.
pub(crate) fn leave(rt: &(impl Files + Env), above: FileId) -> Entry
    ensures path { IsEntry (codes "..") result }
    ensures folder { IsOf above result }
{
    move_to(rt, "..", above)
}

// Makes the folder of the path the working directory, if it is this one.
fn move_to(rt: &(impl Files + Env), path: &str, folder: FileId) -> Entry
    ensures path { IsEntry path.now result }
    ensures folder { IsOf folder result }
{
    let Some(calls) = change(rt, path) else {
        return Entry::Refused;
    };
    match fs::metadata(rt, ".") {
        Ok(here) if FileId::of(&here) == folder => Entry::Entered(folder, calls),
        _ => Entry::Astray,
    }
}

// Makes the folder of the path the working directory, and notes it. That it does so is read here, and proved nowhere.
fn change(rt: &impl Env, path: &str) -> Option<History>
    ensures { IfSome result (λ calls. calls ≡ event ChangedTo path.now ∷ []) }
{
    env::set_current_dir(rt, path).ok()?;
    let calls = History::new(&Events).with(&Call(RawCall::Entered, path.as_bytes()));
    Some(calls)
}

// A path whose last part is a name: a symbolic link's name with a slash behind it would be followed.
fn without_slashes(path: &str) -> &str {
    match path.trim_end_matches('/') {
        "" => path,
        name => name,
    }
}
