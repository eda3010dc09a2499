//! A run of a script, item by item.

ghost use Rattle.std.specs.Prelude.{◌≡◌, ◌⊎◌, ◌≤◌, ◌<◌, ◌∷◌, ◌++◌, [], List, true, None, IfOk, IfErr, OnOk, OnErr, IsErrOf};
ghost use Rattle.ftp_base.specs.declared.fault.Failed.TheVariants.{Fault, Memory};
ghost use Rattle.ftp_base.specs.Outside.{HasRisen, Writes};
ghost use Rattle.ftp_events.specs.declared.entry.Entry.{Entry};
ghost use Rattle.ftp_control.specs.Writing.{WritesFront};
ghost use Rattle.ftp_text.specs.declared.setup.Item.{Item};
ghost use Rattle.ftp_text.specs.declared.setup.Item.TheVariants as item;
ghost use Rattle.ftp_script_run.specs.Items.{event_in};
ghost use Rattle.ftp_script_run.specs.Left.{end_lines};
ghost use Rattle.ftp_script_run.specs.declared.command.Ending.TheVariants as ending;
ghost use Rattle.ftp_script_run.specs.Outcome.{log_lines, bad_line, Ends, EndsPart};
ghost use Rattle.ftp_audit.specs.Heard.{HasHeard};
ghost use Rattle.ftp_script_run.specs.Runs.{Before, Keeps, MayCome, MayTake, Takes, IsTaken, IsPartlyTaken};
ghost use Rattle.ftp_script_run.specs.Audited.{IsNoted};
ghost use Rattle.ftp_options.specs.Builder.{settings_of};
ghost use Rattle.ftp_hub.specs.Runs.{is_linked};
ghost use Rattle.ftp_hub.specs.declared.state.StateError.{StateError};
ghost use Rattle.ftp_hub.specs.Refused.{HasCause, IsFirstRefusal};
ghost use Rattle.ftp_hub.specs.State.{IsForm};
ghost use Rattle.ftp_hub.specs.Stands.{Stands, count_of, options_of};
ghost use Rattle.ftp_script_run.specs.Resumed.{HasState};
ghost use Rattle.ftp_script_run.specs.Script.{may_stand};

use crate::MAX_FILE;
use crate::command::Ending;
use crate::fitting::look_at;
use crate::printing::{print_bad_line, print_entry, print_files, print_links};
use ftp_audit::{Audit, Quota};
use ftp_base::{
    Bytes, Failed, InsertError, LinkFault, LinkTable, MemoryLink, MemoryStorage, Sink, StoreError,
};
use ftp_control::write_all;
use ftp_events::{Entry, HubEvent};
use ftp_hub::{Hub, HubState, StateError, run_event};
use ftp_options::Options;
use ftp_text::{FailingCalls, Item, default_options, encode_state, options_in};
use std::alloc::Global;

/// The hub, the storage with its budgets, and the links. Of events and entries nothing is kept here.
#[derive(Drop)]
pub struct Run {
    alloc: Global,
    hub: Hub,
    storage: Quota<MemoryStorage>,
    links: LinkTable<MemoryLink>,
    // The text that is written next.
    text: Vec<u8>,
}

impl Run {
    /// Nothing came.
    pub fn new(alloc: Global) -> Run
        ensures { Keeps None result [] [] }
    {
        let hub = Hub::new(alloc, default_options(alloc));
        let storage = Quota::transparent(MemoryStorage::new(alloc, MAX_FILE, Vec::new(alloc)));
        Run {
            alloc,
            hub,
            storage,
            links: LinkTable::new(alloc),
            text: Vec::new(alloc),
        }
    }

    /// The storage, as the items so far leave it.
    pub fn storage(&self) -> &Quota<MemoryStorage>
        ensures { result.now ≡ self.now.storage }
    {
        &self.storage
    }

    /// Does what the item asks for, and writes the entry of an event.
    pub fn take<K: Sink>(&mut self, item: Item, sink: &mut K) -> Result<(), Failed>
        requires { MayTake self.old item }
        ensures took { OnOk result ((before : Before) (items : List Item) (log : List Entry) → Keeps before self.old items log → MayCome before self.old items item →
            IsTaken before self.new (items ++ item ∷ []) log (K.written sink.old) (K.written sink.new)) }
        ensures fault_rose { IsErrOf result Fault → HasRisen (K.faults sink.old) (K.faults sink.new) }
        ensures count { K.faults sink.old ≤ K.faults sink.new }

        // After an error a part from the front of the entry was written.
        ensures front { OnErr result ((before : Before) (items : List Item) (log : List Entry) → Keeps before self.old items log → MayCome before self.old items item →
            IsPartlyTaken before self.new (items ++ item ∷ []) log (K.written sink.old) (K.written sink.new)) }
    {
        match item {
            Item::Event(event) => self.event(event, sink),
            other => self.set_up(other),
        }
    }

    /// Does what an item asks for that is no event.
    pub fn set_up(&mut self, item: Item) -> Result<(), Failed>
        requires may { MayTake self.old item }
        requires quiet { event_in item ≡ None }
        ensures took { OnOk result (Takes self.old item self.new []) }
        ensures only_memory { IfErr result (λ e. e ≡ Memory) }
    {
        match item {
            Item::Skip => Ok(()),
            Item::Options { .. } => {
                self.start(options_in(self.alloc, item));
                Ok(())
            }
            Item::Storage { max, fails } => {
                self.set_storage(max, fails);
                Ok(())
            }
            Item::Dir { path } => self.make_dir(path),
            Item::File { bytes, path } => self.put_file(bytes, path),
            Item::Quota { default } => {
                self.set_quota(default);
                Ok(())
            }
            Item::Budget { bytes, user } => self.set_budget(bytes, user),
            Item::Link {
                number,
                chunk,
                fails,
                bytes,
            } => self.link(number, chunk, fails, bytes),
            Item::Event(_) => unreachable!(),
        }
    }

    /// Does what the item asks for, and has the entry of an event taken by the audit.
    ///
    /// Neither the hub's count of events nor that of the audit can end in a script, which has far fewer lines.
    pub fn note(&mut self, item: Item, audit: &mut Audit) -> Result<(), Failed>
        requires { MayTake self.old item }
        ensures noted { OnOk result ((items : List Item) (log : List Entry) → Keeps None self.old items log → may_stand items item ≡ true → HasHeard audit.old log →
            IsNoted self.new (items ++ item ∷ []) log audit.new) }
        ensures only_memory { IfErr result (λ e. e ≡ Memory) }
    {
        match item {
            Item::Event(event) => self.note_event(event, audit),
            other => self.set_up(other),
        }
    }

    // Runs the event, has its entry taken by the audit and lets it go.
    fn note_event(&mut self, event: HubEvent, audit: &mut Audit) -> Result<(), Failed>
        requires { MayTake self.old (item.Event event) }
        ensures noted { OnOk result ((items : List Item) (log : List Entry) → Keeps None self.old items log → may_stand items (item.Event event) ≡ true → HasHeard audit.old log →
            IsNoted self.new (items ++ item.Event event ∷ []) log audit.new) }
        ensures only_memory { IfErr result (λ e. e ≡ Memory) }
    {
        let entry = self.step(event)?;
        match audit.take(&entry) {
            Ok(()) => {
                drop(entry);
                Ok(())
            }
            Err(_) => {
                drop(entry);
                Err(Failed::Memory)
            }
        }
    }

    /// Goes on from the state of a hub, under the options so far.
    pub fn go_on_from(&mut self, state: HubState) -> Result<(), StateError>
        requires form { IsForm state }
        ensures options { OnOk result (options_of self.new.hub ≡ options_of self.old.hub) }
        ensures stands { OnOk result ((front : List Entry) → HasState (options_of self.old.hub) front state → Stands self.new.hub front) }
        ensures count { OnOk result (count_of self.new.hub ≡ state.events) }
        ensures passed { OnOk result ((e : StateError) → HasCause (options_of self.old.hub) state e → ⊥) }
        ensures refused { IfErr result (λ e. (e ≡ StateError.OutOfMemory) ⊎ IsFirstRefusal (options_of self.old.hub) state e) }
        ensures others { self.new ≡ record self.old { hub = self.new.hub } }
    {
        let options = self.hub.options().copy(self.alloc)?;
        self.hub = Hub::from_state(self.alloc, options, state)?;
        Ok(())
    }

    /// How many events the hub has counted.
    pub fn events(&self) -> u64
        ensures { result ≡ count_of self.now.hub }
    {
        self.hub.events()
    }

    /// Says whether the number has its link.
    pub fn has_link(&self, number: u64) -> bool
        ensures { result ≡ is_linked self.now.links number }
    {
        self.links.has(number)
    }

    // Makes the hub anew, under these options.
    fn start(&mut self, options: Options)
        ensures fresh { Stands self.new.hub [] }
        ensures count { count_of self.new.hub ≡ 0 }
        ensures set { settings_of (options_of self.new.hub) ≡ settings_of options }
        ensures others { self.new ≡ record self.old { hub = self.new.hub } }
    {
        self.hub = Hub::new(self.alloc, options);
    }

    // Makes the storage, which has no files yet.
    fn set_storage(&mut self, max: u64, fails: FailingCalls<u64>)
        requires { MayTake self.old (item.Storage max fails) }
        ensures { Takes self.old (item.Storage max fails) self.new [] }
    {
        let storage = MemoryStorage::new(self.alloc, max, fails.into_vec());
        self.storage.replace(storage);
    }

    // Makes a directory.
    fn make_dir(&mut self, path: Bytes) -> Result<(), Failed>
        requires { MayTake self.old (item.Dir path) }
        ensures put { OnOk result (Takes self.old (item.Dir path) self.new []) }
        ensures only_memory { IfErr result (λ e. e ≡ Memory) }
    {
        match self.storage.mkdir(path) {
            Ok(()) => Ok(()),
            Err(error) => Err(want_of_memory(error)),
        }
    }

    // Puts a file into the storage.
    fn put_file(&mut self, bytes: Bytes, path: Bytes) -> Result<(), Failed>
        requires { MayTake self.old (item.File bytes path) }
        ensures put { OnOk result (Takes self.old (item.File bytes path) self.new []) }
        ensures only_memory { IfErr result (λ e. e ≡ Memory) }
    {
        match self.storage.put_file(path, bytes.into_vec()) {
            Ok(()) => Ok(()),
            Err(error) => Err(want_of_memory(error)),
        }
    }

    // Gives each user a budget.
    fn set_quota(&mut self, default: u64)
        requires { MayTake self.old (item.Quota default) }
        ensures { Takes self.old (item.Quota default) self.new [] }
    {
        self.storage.limit(self.alloc, default);
    }

    // Gives a user a budget of his own.
    fn set_budget(&mut self, bytes: u64, user: Bytes) -> Result<(), Failed>
        requires { MayTake self.old (item.Budget bytes user) }
        ensures put { OnOk result (Takes self.old (item.Budget bytes user) self.new []) }
        ensures only_memory { IfErr result (λ e. e ≡ Memory) }
    {
        match self.storage.budget(user, bytes) {
            Ok(()) => Ok(()),
            Err(_) => Err(Failed::Memory),
        }
    }

    // Puts a link into the table.
    fn link(
        &mut self,
        number: u64,
        chunk: u32,
        fails: FailingCalls<(u64, LinkFault)>,
        bytes: Bytes,
    ) -> Result<(), Failed>
        requires { MayTake self.old (item.Link number chunk fails bytes) }
        ensures put { OnOk result (Takes self.old (item.Link number chunk fails bytes) self.new []) }
        ensures only_memory { IfErr result (λ e. e ≡ Memory) }
    {
        let link = MemoryLink::new(self.alloc, bytes.into_vec(), chunk, fails.into_vec());
        match self.links.insert(number, link) {
            Ok(()) => Ok(()),
            // A number that has its link has no second line.
            Err(InsertError::Taken(_) | InsertError::OutOfMemory(_)) => Err(Failed::Memory),
        }
    }

    // Runs the event, writes its entry and lets it go.
    fn event<K: Sink>(&mut self, event: HubEvent, sink: &mut K) -> Result<(), Failed>
        requires { MayTake self.old (item.Event event) }
        ensures took { OnOk result ((before : Before) (items : List Item) (log : List Entry) → Keeps before self.old items log → MayCome before self.old items (item.Event event) →
            IsTaken before self.new (items ++ item.Event event ∷ []) log (K.written sink.old) (K.written sink.new)) }
        ensures fault_rose { IsErrOf result Fault → HasRisen (K.faults sink.old) (K.faults sink.new) }
        ensures count { K.faults sink.old ≤ K.faults sink.new }
        ensures front { OnErr result ((before : Before) (items : List Item) (log : List Entry) → Keeps before self.old items log → MayCome before self.old items (item.Event event) →
            IsPartlyTaken before self.new (items ++ item.Event event ∷ []) log (K.written sink.old) (K.written sink.new)) }
    {
        let entry = self.step(event)?;
        let written = print_entry(sink, &mut self.text, &entry);
        drop(entry);
        written
    }

    // Runs the event. The hub's count of events cannot end in a script, which has far fewer lines.
    fn step(&mut self, event: HubEvent) -> Result<Entry, Failed>
        requires { MayTake self.old (item.Event event) }
        ensures due { IfOk result (λ e. Takes self.old (item.Event event) self.new (e ∷ [])) }
        ensures only_memory { IfErr result (λ e. e ≡ Memory) }
    {
        match run_event(&mut self.hub, &mut self.storage, &mut self.links, event) {
            Ok(entry) => Ok(entry),
            Err(_) => Err(Failed::Memory),
        }
    }

    /// Writes what stands behind the log.
    pub fn close<K: Sink>(&mut self, ending: Ending, sink: &mut K) -> Result<(), Failed>
        ensures wrote { OnOk result ((log : List Entry) → Stands self.old.hub log →
            Ends ending (options_of self.old.hub) log self.old.links self.old.storage (K.written sink.old) (K.written sink.new)) }
        ensures fault_rose { IsErrOf result Fault → HasRisen (K.faults sink.old) (K.faults sink.new) }
        ensures count { K.faults sink.old ≤ K.faults sink.new }

        // After an error nothing was written, or a part from the front.
        ensures front { OnErr result ((log : List Entry) → Stands self.old.hub log →
            EndsPart ending (options_of self.old.hub) log self.old.links self.old.storage (K.written sink.old) (K.written sink.new)) }
    {
        match ending {
            Ending::LinksAndFiles => self.end(sink),
            Ending::State => self.save(sink),
        }
    }

    // Writes the text of the hub's state.
    fn save<K: Sink>(&self, sink: &mut K) -> Result<(), Failed>
        ensures wrote { OnOk result ((log : List Entry) → Stands self.now.hub log →
            Ends ending.State (options_of self.now.hub) log self.now.links self.now.storage (K.written sink.old) (K.written sink.new)) }
        ensures fault_rose { IsErrOf result Fault → HasRisen (K.faults sink.old) (K.faults sink.new) }
        ensures count { K.faults sink.old ≤ K.faults sink.new }
        ensures front { OnErr result ((log : List Entry) → Stands self.now.hub log →
            EndsPart ending.State (options_of self.now.hub) log self.now.links self.now.storage (K.written sink.old) (K.written sink.new)) }
    {
        let Ok(state) = self.hub.state() else {
            return Err(Failed::Memory);
        };
        look_at(&state);
        match encode_state(self.alloc, &state) {
            Ok(text) => write_all(sink, text.as_slice()),
            Err(_) => Err(Failed::Memory),
        }
    }

    /// Writes the lines on links and files.
    pub fn end<K: Sink>(&mut self, sink: &mut K) -> Result<(), Failed>
        ensures wrote { OnOk result (Writes (K.written sink.old) (K.written sink.new) (end_lines self.old.links self.old.storage)) }
        ensures fault_rose { IsErrOf result Fault → HasRisen (K.faults sink.old) (K.faults sink.new) }
        ensures count { K.faults sink.old ≤ K.faults sink.new }

        // After an error a part from the front was written.
        ensures front { OnErr result (WritesFront (K.written sink.old) (K.written sink.new) (end_lines self.old.links self.old.storage)) }
    {
        print_links(self.alloc, sink, &mut self.text, &self.links)?;
        print_files(sink, &mut self.text, self.storage.inner())
    }

    /// Writes the line that names a bad line.
    pub fn bad_line<K: Sink>(&mut self, number: u64, sink: &mut K) -> Result<(), Failed>
        ensures wrote { OnOk result (Writes (K.written sink.old) (K.written sink.new) (bad_line number)) }
        ensures fault_rose { IsErrOf result Fault → HasRisen (K.faults sink.old) (K.faults sink.new) }
        ensures count { K.faults sink.old ≤ K.faults sink.new }

        // After an error a part from the front was written.
        ensures front { OnErr result (WritesFront (K.written sink.old) (K.written sink.new) (bad_line number)) }
    {
        print_bad_line(sink, &mut self.text, number)
    }
}

// What stops a run where the storage does not take what it neither refuses nor fails at.
fn want_of_memory(error: StoreError) -> Failed
    requires { error ≡ StoreError.OutOfMemory }
    ensures { result ≡ Memory }
{
    match error {
        StoreError::OutOfMemory => Failed::Memory,
        StoreError::Kind(_) | StoreError::Failed => unreachable!(),
    }
}
