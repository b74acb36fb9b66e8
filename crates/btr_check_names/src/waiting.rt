// Names that wait for the other item that is to give them.
ghost use Rattle.std.specs.Prelude.{◌≡◌, ◌==◌, Some, None, IfOk, OnOk, OnErr, option_map};
ghost use Rattle.std.specs.FinMap as map;
ghost use Rattle.btr_check_names.specs.Pairs.{SetsOnly, fits, map_at};

use crate::ascending::Ascending;
use crate::claim::Claim;
use crate::half::Half;
use btr_base::Memory;
use std::alloc::Global;
use std::collections::BTreeMap;
use std::marker::Model;

/// Names that wait for the other item that is to give them, each at its claim. In a sound tree claims come ascending, so nearly all wait in a
/// list, and only the others in a map.
#[derive(Drop)]
pub(crate) struct Waiting {
    alloc: Global,
    ascending: Ascending,
    others: BTreeMap<Claim, Half>,
}

impl Model for Waiting {
    ghost use Rattle.std.specs.FinMap.{FinMap};
    ghost use Rattle.btr_check_names.specs.Pairs.{WaitOnce, Half, claim_cmp, coded_waiting, joined};

    ghost Value = { FinMap claim_cmp Half };

    ghost coded = { coded_waiting };

    ghost view = { λ w. joined w.ascending w.others.entries };

    ghost invariant = { λ w. WaitOnce w.ascending w.others.entries };
}

impl Waiting {
    /// No name waits.
    pub(crate) fn new(alloc: Global) -> Waiting
        ensures { result ≡ map.empty }
    {
        Waiting {
            alloc,
            ascending: Ascending::new(alloc),
            others: BTreeMap::new(alloc),
        }
    }

    /// Whether no name waits.
    pub(crate) fn is_empty(&self) -> bool
        ensures { result ≡ (map.len self.now == 0) }
    {
        self.ascending.is_empty() && self.others.is_empty()
    }

    /// An item gives a name: where one waits at its claim, that is let go, and the answer is whether it is the other item with the same name.
    /// `Memory`: there was no memory to let it go; then nothing is said of what waits.
    pub(crate) fn meet(
        &mut self,
        claim: &Claim,
        is_first: bool,
        name: &[u8],
    ) -> Result<Option<bool>, Memory>
        ensures found { IfOk result (λ fit. fit ≡ option_map (λ half. fits half is_first name.now) (map.get self.old claim.now)) }
        ensures left { OnOk result (self.new ≡ map.remove self.old claim.now) }
    {
        if let Some(fit) = self.ascending.meet(claim, is_first, name)? {
            return Ok(Some(fit));
        }
        Ok(meet_in_map(&mut self.others, claim, is_first, name))
    }

    /// A name waits where none did. `Memory`: there is no memory for it; then all is as it was.
    pub(crate) fn wait(&mut self, claim: Claim, is_first: bool, name: &[u8]) -> Result<(), Memory>
        requires { map.get self.old claim ≡ None }
        ensures ok { OnOk result (self.new ≡ map.insert self.old claim (record { is_first = is_first; name = name.now })) }
        ensures err { OnErr result (self.new ≡ self.old) }
    {
        if self.ascending.push(&claim, is_first, name)? {
            return Ok(());
        }
        let half = Half::new(self.alloc, is_first, name)?;
        put(&mut self.others, claim, half)?;
        Ok(())
    }
}

// Where a name waits in a map, it does no more, and the answer is whether it is the same name of the other item.
fn meet_in_map(
    map: &mut BTreeMap<Claim, Half>,
    claim: &Claim,
    is_first: bool,
    name: &[u8],
) -> Option<bool>
    ensures found { result ≡ option_map (λ half. fits half is_first name.now) (map_at map.old.entries claim.now) }
    ensures left { SetsOnly map.old.entries claim.now None map.new.entries }
{
    match map.remove(claim) {
        Some(half) => Some(half.fits(is_first, name)),
        None => None,
    }
}

// A name waits in a map. `Memory`: there is no memory for it; then all is as it was.
fn put(map: &mut BTreeMap<Claim, Half>, claim: Claim, half: Half) -> Result<(), Memory>
    ensures ok { OnOk result (SetsOnly map.old.entries claim (Some half) map.new.entries) }
    ensures err { OnErr result (map.new.entries ≡ map.old.entries) }
{
    match map.insert(claim, half) {
        Ok(_) => Ok(()),
        Err(_) => Err(Memory),
    }
}
