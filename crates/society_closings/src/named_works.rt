//! The works of a pool's senders that are looked at, by sender.
ghost use Rattle.std.specs.Prelude.{◌≡◌, List, ℕ, true, IfOk, OnOk, bytes_eq};
ghost use Rattle.std.specs.List.{list_any};
ghost use Rattle.society_closings.specs.CutWorks.{NotesListed, NotesMore, is_noted, notes_of_sender};

use society_core::TransmissionKey;
use std::alloc::{AllocError, Global};
use std::collections::{BTreeMap, BTreeSet};
use work_ids::{SenderKey, WorkNumber};

/// Works of some senders, each once.
#[derive(Drop)]
pub(crate) struct NamedWorks {
    by_sender: BTreeMap<SenderKey, BTreeSet<WorkNumber>>,
}

impl NamedWorks {
    /// No work, of the senders of a cut.
    pub(crate) fn of_cut(alloc: Global, cut: &[TransmissionKey]) -> Result<NamedWorks, AllocError>
        ensures { IfOk result (λ named. (sender : List ℕ) → notes_of_sender named sender ≡ list_any (λ key. bytes_eq key.sender sender) cut.now) }
    {
        let mut by_sender = BTreeMap::new(alloc);
        for key in cut {
            by_sender.insert(key.sender, BTreeSet::new(alloc))?;
        }
        Ok(NamedWorks { by_sender })
    }

    // Notes a work, where works of its sender are noted at all.
    fn note(&mut self, sender: &SenderKey, work: WorkNumber) -> Result<(), AllocError>
        ensures more { OnOk result (NotesMore self.old self.new) }
        ensures noted { OnOk result (notes_of_sender self.old sender.now ≡ true → is_noted self.new sender.now work ≡ true) }
    {
        if let Some(works) = self.by_sender.get_mut(sender) {
            works.insert(work)?;
        }
        Ok(())
    }

    /// Notes works, each where works of its sender are noted at all.
    pub(crate) fn note_all(&mut self, works: &[(SenderKey, WorkNumber)]) -> Result<(), AllocError>
        ensures more { OnOk result (NotesMore self.old self.new) }
        ensures noted { OnOk result (NotesListed works.now self.new) }
    {
        for (sender, work) in works {
            self.note(sender, *work)?;
        }
        Ok(())
    }

    /// The works that are noted of a sender, ascending.
    pub(crate) fn works_of(
        &self,
        alloc: Global,
        sender: &SenderKey,
    ) -> Result<Vec<WorkNumber>, AllocError>
        ensures { IfOk result (λ works. (work : List ℕ) → list_any (bytes_eq work) works.items ≡ is_noted self.now sender.now work) }
    {
        match self.by_sender.get(sender) {
            Some(works) => works.iter().copied().collect(alloc),
            None => Ok(Vec::new(alloc)),
        }
    }
}
