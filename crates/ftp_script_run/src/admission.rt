//! Which lines may follow those that were read.

ghost use Rattle.std.specs.Prelude.{◌≡◌, ◌&&◌, not, ℕ, ◌≤◌, Bool, List, [], Option, IfOk, OnOk};
ghost use Rattle.std.specs.Ordering.{nat_cmp};
ghost use Rattle.std.specs.BTreeSet.{contains};
ghost use Rattle.ftp_base.specs.declared.fault.LinkFault.{LinkFault};
ghost use Rattle.ftp_options.specs.declared.host.PassiveHost.{PassiveHost};
ghost use Rattle.ftp_options.specs.declared.lockout.FailedLoginsPolicy.{FailedLoginsPolicy};
ghost use Rattle.ftp_options.specs.declared.options.ActivePassiveMode.{ActivePassiveMode};
ghost use Rattle.ftp_options.specs.declared.options.ListenerMode.{ListenerMode};
ghost use Rattle.ftp_text.specs.declared.setup.Item.{Item};
ghost use Rattle.ftp_text.specs.declared.setup.Item.TheVariants as item;
ghost use Rattle.ftp_text.specs.Setup.{IsItem};
ghost use Rattle.ftp_events.specs.Covers.{is_covered};
ghost use Rattle.ftp_script_run.specs.Admission.{Remembers, LetsIn, GivesItem};
ghost use Rattle.ftp_script_run.specs.SetUp.{has_event, IsSetUp};
ghost use Rattle.ftp_script_run.specs.Script.{is_free, has_quota, has_no_budget};

use ftp_audit::Quota;
use ftp_base::{Bytes, MemoryStorage};
use ftp_events::{EventKind, HubEvent};
use ftp_text::{Item, LineFault, read_item};
use std::alloc::Global;
use std::collections::BTreeSet;

/// No line is longer, in bytes, its line feed not counted.
pub const LONGEST_LINE: usize = 65_536;

/// No script is longer, in bytes.
pub const LONGEST_SCRIPT: usize = 16_777_216;

/// No file is longer, in bytes, where no line says otherwise.
pub const MAX_FILE: u64 = 16_777_216;

/// What is kept of the lines of a script: whether one said something, whether an event came, or a part of the storage,
/// how long a file may be, and the numbers of the links.
#[derive(Drop)]
pub struct Admission {
    begun: bool,
    has_event: bool,
    has_stored: bool,
    max_file: u64,
    links: BTreeSet<u64>,
}

impl Admission {
    /// Nothing came.
    pub fn new(alloc: Global) -> Admission
        ensures { Remembers result [] }
    {
        Admission {
            begun: false,
            has_event: false,
            has_stored: false,
            max_file: MAX_FILE,
            links: BTreeSet::new(alloc),
        }
    }

    /// The item of a line that may stand there. The source has given `taken` bytes up to the line's end. Until an event
    /// comes, the storage is the one that the lines before set up.
    pub fn line(
        &mut self,
        alloc: Global,
        taken: usize,
        line: &[u8],
        storage: &Quota<MemoryStorage>,
    ) -> Result<Item, LineFault>
        ensures let_in { (before : List Item) → Remembers self.old before → IsSetUp storage.now before → GivesItem before taken line.now result self.new }
        ensures item { IfOk result IsItem }
        ensures limit { OnOk result (taken ≤ 16777216) }
    {
        if line.len() > LONGEST_LINE || taken > LONGEST_SCRIPT {
            return Err(LineFault::Bad);
        }
        match read_item(alloc, line) {
            Ok(item) => self.keep(item, storage),
            Err(fault) => Err(fault),
        }
    }

    // The item, where its line may stand there.
    fn keep(&mut self, item: Item, storage: &Quota<MemoryStorage>) -> Result<Item, LineFault>
        ensures same { IfOk result (λ i. i ≡ item) }
        ensures let_in { (before : List Item) → Remembers self.old before → IsSetUp storage.now before → LetsIn before item result self.new }
    {
        match self.let_in(&item, storage) {
            Ok(()) => Ok(item),
            Err(fault) => {
                discard(item);
                Err(fault)
            }
        }
    }

    fn let_in(&mut self, item: &Item, storage: &Quota<MemoryStorage>) -> Result<(), LineFault>
        ensures { (before : List Item) → Remembers self.old before → IsSetUp storage.now before → LetsIn before item.now result self.new }
    {
        match item {
            Item::Skip => Ok(()),
            Item::Options { .. } => self.let_options_in(),
            Item::Storage { max, fails: _ } => self.let_storage_in(*max),
            Item::Dir { path } => self.let_dir_in(path, storage),
            Item::File { bytes, path } => self.let_file_in(bytes, path, storage),
            Item::Quota { default: _ } => self.let_quota_in(storage),
            Item::Budget { bytes: _, user } => self.let_budget_in(user, storage),
            Item::Link {
                number,
                chunk: _,
                fails: _,
                bytes: _,
            } => self.let_link_in(*number),
            Item::Event(event) => self.let_event_in(event),
        }
    }

    // The options, where nothing was said.
    fn let_options_in(&mut self) -> Result<(), LineFault>
        ensures { (before : List Item) (mode : ListenerMode) (lo hi : ℕ) (host : PassiveHost) (active : ActivePassiveMode) (idle : ℕ) (lockout : Option FailedLoginsPolicy) (restart : Bool) →
            Remembers self.old before → LetsIn before (item.Options mode lo hi host active idle lockout restart) result self.new }
    {
        if self.begun {
            return Err(LineFault::Bad);
        }
        self.begun = true;
        Ok(())
    }

    // The storage, where no part of it and no event came.
    fn let_storage_in(&mut self, max: u64) -> Result<(), LineFault>
        ensures { (before : List Item) (fails : List ℕ) → Remembers self.old before → LetsIn before (item.Storage max fails) result self.new }
    {
        if self.has_event || self.has_stored {
            return Err(LineFault::Bad);
        }
        self.begun = true;
        self.has_stored = true;
        self.max_file = max;
        Ok(())
    }

    // A directory, where no event came and its path is free.
    fn let_dir_in(&mut self, path: &Bytes, storage: &Quota<MemoryStorage>) -> Result<(), LineFault>
        ensures { (before : List Item) → Remembers self.old before → IsSetUp storage.now before → LetsIn before (item.Dir path.now) result self.new }
    {
        if !self.takes(path.as_slice(), storage) {
            return Err(LineFault::Bad);
        }
        self.begun = true;
        self.has_stored = true;
        Ok(())
    }

    // A file, where no event came, its path is free, and it is not too long.
    fn let_file_in(
        &mut self,
        bytes: &Bytes,
        path: &Bytes,
        storage: &Quota<MemoryStorage>,
    ) -> Result<(), LineFault>
        ensures { (before : List Item) → Remembers self.old before → IsSetUp storage.now before → LetsIn before (item.File bytes.now path.now) result self.new }
    {
        if !self.takes(path.as_slice(), storage) || bytes.as_slice().len() as u64 > self.max_file {
            return Err(LineFault::Bad);
        }
        self.begun = true;
        self.has_stored = true;
        Ok(())
    }

    // Whether no event came and the path is free.
    fn takes(&self, path: &[u8], storage: &Quota<MemoryStorage>) -> bool
        ensures { (before : List Item) → Remembers self.now before → IsSetUp storage.now before → result ≡ (not (has_event before) && is_free before path.now) }
    {
        !self.has_event && storage.inner().directory_refusal(path).is_none()
    }

    // Budgets, where there are none and no event came.
    fn let_quota_in(&mut self, storage: &Quota<MemoryStorage>) -> Result<(), LineFault>
        ensures { (before : List Item) (default : ℕ) → Remembers self.old before → IsSetUp storage.now before → LetsIn before (item.Quota default) result self.new }
    {
        if !self.takes_quota(storage) {
            return Err(LineFault::Bad);
        }
        self.begun = true;
        Ok(())
    }

    // A user's own budget, where there are budgets, the user has none of his own, and no event came.
    fn let_budget_in(
        &mut self,
        user: &Bytes,
        storage: &Quota<MemoryStorage>,
    ) -> Result<(), LineFault>
        ensures { (before : List Item) (bytes : ℕ) → Remembers self.old before → IsSetUp storage.now before → LetsIn before (item.Budget bytes user.now) result self.new }
    {
        if !self.takes_budget(user, storage) {
            return Err(LineFault::Bad);
        }
        self.begun = true;
        Ok(())
    }

    // Whether no event came and there are no budgets.
    fn takes_quota(&self, storage: &Quota<MemoryStorage>) -> bool
        ensures { (before : List Item) → Remembers self.now before → IsSetUp storage.now before → result ≡ (not (has_event before) && not (has_quota before)) }
    {
        !self.has_event && !storage.has_budgets()
    }

    // Whether no event came, and there are budgets, but none of the user's own.
    fn takes_budget(&self, user: &Bytes, storage: &Quota<MemoryStorage>) -> bool
        ensures { (before : List Item) → Remembers self.now before → IsSetUp storage.now before → result ≡ (not (has_event before) && (has_quota before && has_no_budget before user.now)) }
    {
        !self.has_event && storage.has_budgets() && storage.own_budget(user).is_none()
    }

    // An event, where the connection that comes with it is linked.
    fn let_event_in(&mut self, event: &HubEvent) -> Result<(), LineFault>
        ensures { (before : List Item) → Remembers self.old before → LetsIn before (item.Event event.now) result self.new }
    {
        if !self.covers(&event.kind) {
            return Err(LineFault::Bad);
        }
        self.begun = true;
        self.has_event = true;
        Ok(())
    }

    // A link, where its number is new.
    fn let_link_in(&mut self, number: u64) -> Result<(), LineFault>
        ensures { (before : List Item) (chunk : ℕ) (fails : List (ℕ × LinkFault)) (bytes : List ℕ) → Remembers self.old before → LetsIn before (item.Link number chunk fails bytes) result self.new }
    {
        if !self.links.insert(number)? {
            return Err(LineFault::Bad);
        }
        self.begun = true;
        Ok(())
    }

    // Whether the number that an event carries is linked.
    fn covers(&self, kind: &EventKind) -> bool
        ensures { result ≡ is_covered (contains nat_cmp self.now.links) kind.now }
    {
        match kind.link_number() {
            Some(number) => self.links.contains(&number),
            None => true,
        }
    }
}

// Lets an item go.
fn discard(_item: Item) {}
