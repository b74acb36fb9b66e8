// How far words have come along a sentence.
ghost use Rattle.std.specs.Prelude.{◌≡◌, ◌↔◌, ◌∷◌, ◌+◌, ◌<◌, ◌^◌, IsTrue, map};
ghost use Rattle.std.specs.Option.{option_map};
ghost use Rattle.btr_run.specs.Numbers.{number_of};
ghost use Rattle.btr_run.specs.Walk.{behind, behind_file, behind_id, behind_name, behind_option, behind_part, behind_root, behind_volume};
ghost use Rattle.btr_run.specs.Walk.{behind_word, read_by, stage, stage_of, with_given};
ghost use Rattle.btr_run.specs.Words.{IsName, Destination, is_file, nothing, part_of};

use crate::options::Options;
use crate::part::Part;
use btr_listing::good_name;

// A name of a file has at most so many bytes.
const MOST_NAME: usize = 255;

// A volume is made of at most so many directories.
const MOST_DIRECTORIES: u64 = 1000;

/// What was read of the words of a sentence.
#[derive(Clone, Copy)]
pub(crate) struct Read {
    /// The number; 0 where there is none.
    pub(crate) number: u64,
    /// The options of `restore`.
    pub(crate) options: Options,
    /// The number of the word that is a name and no image's; 0 where there is none.
    pub(crate) name: usize,
    /// The number of the word that is the name of a file; 0 where there is none.
    pub(crate) file: usize,
    /// The number of the first image's word, or of words where no image is named; 0 where this isn't read yet.
    pub(crate) images: usize,
}

impl Read {
    /// Before the first word.
    pub(crate) fn nothing() -> Read
        ensures { result ≡ nothing }
    {
        Read {
            number: 0,
            options: Options::new(),
            name: 0,
            file: 0,
            images: 0,
        }
    }
}

/// Which word may come next.
#[derive(Clone, Copy)]
pub(crate) enum Next {
    /// That of the part that is left next, or the first image's name.
    Part,
    /// The id of a subvolume, behind `-r`.
    Id,
    /// Another image's name, or none: the words so far are a sentence.
    Image,
    /// None: the words so far are a sentence.
    End,
}

/// A place in a sentence, behind some words.
#[derive(Clone, Copy)]
pub(crate) struct SentencePlace {
    /// The parts that are left.
    pub(crate) left: &'static [Part],
    pub(crate) next: Next,
    pub(crate) read: Read,
}

impl SentencePlace {
    /// The place behind one more word, the one of this number; `None` where the sentence has another word here.
    pub(crate) fn behind(self, at: usize, word: &str) -> Option<SentencePlace>
        requires { at + 1 < 2 ^ 64 }
        ensures { option_map stage_of result ≡ behind self.next (map part_of self.left.now) self.read at word.now }
    {
        match self.next {
            Next::Part => behind_part(self.left, self.read, at, word),
            Next::Id => behind_id(self, word),
            Next::Image => behind_name(word, self.left, Next::Image, self.read),
            Next::End => None,
        }
    }

    /// What was read, where the words so far are a sentence.
    pub(crate) fn read(self) -> Option<Read>
        ensures { result ≡ read_by self.next self.read }
    {
        match self.next {
            Next::Part => None,
            Next::Id => None,
            Next::Image => Some(self.read),
            Next::End => Some(self.read),
        }
    }
}

// Behind the id of a subvolume.
fn behind_id(place: SentencePlace, word: &str) -> Option<SentencePlace>
    ensures { option_map stage_of result ≡ behind_id (map part_of place.left.now) place.read word.now }
{
    let id = number(word)?;
    let options = place.read.options.with_root(id)?;
    Some(with_options(place.left, place.read, options))
}

// Behind an option or the destination's name: `left` begins with that, and `rest` is what comes behind it.
fn behind_option(
    left: &'static [Part],
    rest: &'static [Part],
    read: Read,
    at: usize,
    word: &str,
) -> Option<SentencePlace>
    requires { map part_of left.now ≡ Destination ∷ map part_of rest.now }
    ensures { option_map stage_of result ≡ behind_option (map part_of rest.now) read at word.now }
{
    match word {
        "-r" => behind_flag(left, read),
        "-s" => Some(with_options(left, read, read.options.with_snapshots()?)),
        "-v" => Some(with_options(left, read, read.options.with_verbose()?)),
        "-D" => Some(with_options(left, read, read.options.with_dry()?)),
        "-i" => Some(with_options(left, read, read.options.with_salvage()?)),
        _ => behind_name(word, rest, Next::Part, Read { name: at, ..read }),
    }
}

// Behind `-r`, which may stand there once.
fn behind_flag(left: &'static [Part], read: Read) -> Option<SentencePlace>
    ensures { option_map stage_of result ≡ behind_root (map part_of left.now) read }
{
    match read.options.root {
        Some(_) => None,
        None => Some(SentencePlace {
            left,
            next: Next::Id,
            read,
        }),
    }
}

// Behind a word of the part that is left next, or of the first image.
fn behind_part(left: &'static [Part], read: Read, at: usize, word: &str) -> Option<SentencePlace>
    requires { at + 1 < 2 ^ 64 }
    ensures { option_map stage_of result ≡ behind_part (map part_of left.now) read at word.now }
{
    let [part, rest @ ..] = left else {
        return behind_name(word, left, Next::Image, Read { images: at, ..read });
    };
    match *part {
        Part::Word(this) => behind_word(word, this, rest, read),
        Part::Number => {
            let number = number(word)?;
            Some(behind_one(rest, Read { number, ..read }))
        }
        Part::Destination => behind_option(left, rest, read, at, word),
        Part::File => behind_file(word, rest, Read { file: at, ..read }),
        Part::Volume => behind_volume(
            rest,
            Read {
                images: at + 1,
                ..read
            },
            word,
        ),
    }
}

// Behind the number of directories of a volume, which stands last.
fn behind_volume(left: &'static [Part], read: Read, word: &str) -> Option<SentencePlace>
    ensures { option_map stage_of result ≡ behind_volume (map part_of left.now) read word.now }
{
    let number = number(word)?;
    if (1..=MOST_DIRECTORIES).contains(&number) {
        Some(SentencePlace {
            left,
            next: Next::End,
            read: Read { number, ..read },
        })
    } else {
        None
    }
}

// Behind a word that has to be this one.
fn behind_word(word: &str, this: &str, left: &'static [Part], read: Read) -> Option<SentencePlace>
    ensures { option_map stage_of result ≡ behind_word word.now this.now (map part_of left.now) read }
{
    if word == this {
        Some(behind_one(left, read))
    } else {
        None
    }
}

// Behind a name.
fn behind_name(word: &str, left: &'static [Part], next: Next, read: Read) -> Option<SentencePlace>
    ensures { option_map stage_of result ≡ behind_name word.now (map part_of left.now) next read }
{
    if is_name(word) {
        Some(SentencePlace { left, next, read })
    } else {
        None
    }
}

// Behind the name of a file.
fn behind_file(word: &str, left: &'static [Part], read: Read) -> Option<SentencePlace>
    ensures { option_map stage_of result ≡ behind_file word.now (map part_of left.now) read }
{
    if is_file(word) {
        Some(behind_one(left, read))
    } else {
        None
    }
}

// Behind one part.
fn behind_one(left: &'static [Part], read: Read) -> SentencePlace
    ensures { stage_of result ≡ stage (map part_of left.now) Next.Part read }
{
    SentencePlace {
        left,
        next: Next::Part,
        read,
    }
}

// Behind some options.
fn with_options(left: &'static [Part], read: Read, options: Options) -> SentencePlace
    ensures { stage_of result ≡ with_given (map part_of left.now) read options }
{
    behind_one(left, Read { options, ..read })
}

// Whether a word may name an image.
fn is_name(word: &str) -> bool
    ensures { IsTrue result ↔ IsName word.now }
{
    match word.as_bytes() {
        [] => false,
        [first, ..] => *first != b'-',
    }
}

// Whether a word may name a file that is made in a folder.
fn is_file(word: &str) -> bool
    ensures { IsTrue result ↔ IsTrue (is_file word.now) }
{
    if !is_name(word) || word.len() > MOST_NAME {
        return false;
    }
    match good_name(word.as_bytes()) {
        None => false,
        Some(_) => true,
    }
}

// The number of 64 bits whose decimal digits a word is.
fn number(word: &str) -> Option<u64>
    ensures { result ≡ number_of word.now }
{
    let Ok(n) = word.parse::<u64>() else {
        return None;
    };
    let mut digits = itoa::Buffer::new();
    if digits.format(n) == word {
        Some(n)
    } else {
        None
    }
}
