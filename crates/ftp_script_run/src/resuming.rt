//! A script that goes on from the state of a hub.

ghost use Rattle.std.specs.Prelude.{◌≡◌, ◌≢◌, ℕ, ◌+◌, ◌^◌, ◌≤◌, ◌<◌, ◌++◌, [], List, true, None, Option, Some, OnOk, IfOk, IfErr, IfSome, IfNone, IsErrOf, length, option_to_list, map as each};
ghost use Rattle.ftp_base.specs.Outside.{HasRisen};
ghost use Rattle.ftp_control.specs.Lines.{bytes_in, IsWithin};
ghost use Rattle.std.specs.List.{flat_map, list_all};
ghost use Rattle.ftp_options.specs.declared.options.Options.{Options};
ghost use Rattle.ftp_events.specs.declared.entry.Entry.{Entry};
ghost use Rattle.ftp_hub.specs.Runs.{is_linked};
ghost use Rattle.ftp_hub.specs.State.{IsForm};
ghost use Rattle.ftp_hub.specs.Stands.{options_of};
ghost use Rattle.ftp_hub.specs.declared.state.HubState.{HubState};
ghost use Rattle.ftp_hub.specs.declared.state.JobLine.{JobLine as Job};
ghost use Rattle.ftp_hub.specs.declared.state.SlotLine.{SlotLine as Slot};
ghost use Rattle.ftp_hub.specs.declared.state.StateError.{StateError};
ghost use Rattle.ftp_text.specs.declared.setup.Item.{Item};
ghost use Rattle.ftp_script_run.specs.Script.{has_link};
ghost use Rattle.ftp_script_run.specs.declared.text_script.ScriptError.{ScriptError};
ghost use Rattle.ftp_script_run.specs.Resuming.{Awaits, Begins, IsRefusedSo, Resuming, ResumeOutcome, GivesState};
ghost use Rattle.ftp_script_run.specs.Resumed.{AreOfOptions, AreOptionsOf, IsBadHead, KeepsLines, link_kept, links_named, may_go_on};
ghost use Rattle.ftp_script_run.specs.Legal.{start_of};
ghost use Rattle.ftp_script_run.specs.Runs.{Keeps, outside};
ghost use Rattle.ftp_script_run.specs.SetUp.{is_event};
ghost use Rattle.ftp_script_run.specs.ScriptReader.{IsLawful};
ghost use Rattle.ftp_script_run.specs.Statuses.{TellsFaults};

use crate::head::Head;
use crate::resumed::Resumed;
use crate::run::Run;
use crate::script::taken;
use crate::status::Status;
use crate::{ScriptError, ScriptReader};
use ftp_base::{Sink, Source};
use ftp_control::Span;
use ftp_hub::{HubState, JobLine, SlotKind, SlotLine, StateError};
use ftp_text::{Item, decode_state};
use std::alloc::{AllocError, Global};

/// Reads a state, goes on from it by the script behind it, line by line, and writes the log of the script.
pub fn resume_lines<S: Source, K: Sink>(
    alloc: Global,
    buffer: &mut [u8],
    source: &mut S,
    sink: &mut K,
) -> Status
    requires { length buffer.old ≡ 65537 }
    ensures outcome { IfSome (S.left source.old) (λ bytes. ResumeOutcome result bytes (S.left source.new) (K.written sink.old) (K.written sink.new)) }
    ensures faults { TellsFaults (Some result) (S.faults source.old) (S.faults source.new) (K.faults sink.old) (K.faults sink.new) }
{
    let mut held = Span { start: 0, end: 0 };
    let mut run = Run::new(alloc);
    let mut resumed = match begin(alloc, &mut run, buffer, &mut held, source) {
        Ok(resumed) => resumed,
        Err(error) => return ended(&mut run, error, sink),
    };
    let mut reader = ScriptReader::behind(alloc, held);
    loop {
        if let Some(status) = go_on(
            alloc,
            &mut resumed,
            &mut reader,
            &mut run,
            buffer,
            source,
            sink,
        ) {
            return status;
        }
    }
}

// The status where nothing more is run, and the line that names a bad line.
fn ended<K: Sink>(run: &mut Run, error: ScriptError, sink: &mut K) -> Status
    ensures named { IsRefusedSo error result (K.written sink.old) (K.written sink.new) }
    ensures no_usage { result ≢ Status.Usage }
    ensures read_fault { result ≡ Status.ReadFault → error ≡ ScriptError.Fault }
    ensures write_fault { result ≡ Status.WriteFault → HasRisen (K.faults sink.old) (K.faults sink.new) }
    ensures sink_count { K.faults sink.old ≤ K.faults sink.new }
{
    match error {
        ScriptError::BadLine(k) => Status::BadLine(k).after(run.bad_line(k, sink)),
        ScriptError::Fault => Status::ReadFault,
        ScriptError::Memory => Status::OutOfMemory,
    }
}

// Reads what stands before the script, and has the run go on from there.
fn begin<S: Source>(
    alloc: Global,
    run: &mut Run,
    buffer: &mut [u8],
    held: &mut Span,
    source: &mut S,
) -> Result<Resumed, ScriptError>
    requires new { Keeps None run.old [] [] }
    requires within { IsWithin buffer.old held.old }
    requires len { length buffer.old ≡ 65537 }
    ensures begun { IfOk result (λ resumed. Begins (bytes_in buffer.old held.old) (S.left source.old) resumed run.new (bytes_in buffer.new held.new) (S.left source.new)) }
    ensures bad { (k : ℕ) → IsErrOf result (ScriptError.BadLine k) → IfSome (S.left source.old) (λ left. IsBadHead k (bytes_in buffer.old held.old ++ left)) }
    ensures fault_rose { IsErrOf result ScriptError.Fault → HasRisen (S.faults source.old) (S.faults source.new) }
    ensures count { S.faults source.old ≤ S.faults source.new }
    ensures within { IsWithin buffer.new held.new }
    ensures len { length buffer.new ≡ length buffer.old }
{
    let head = Head::read(alloc, buffer, held, source)?;
    let state = match state_of(alloc, &head) {
        Ok(state) => state,
        Err(error) => return Err(error),
    };
    let before = head.last();
    let links = links_of(alloc, &state)?;
    let Head {
        options,
        text: _,
        lines: _,
        is_closed: _,
    } = head;
    set_options(run, options)?;
    match run.go_on_from(state) {
        Ok(()) => Ok(Resumed { before, links }),
        Err(error) => Err(refused_at(before, error)),
    }
}

// What is told where a state is refused at this line, or where memory runs out.
fn refused_at(line: u64, error: StateError) -> ScriptError
    ensures line { (k : ℕ) → result ≡ ScriptError.BadLine k → k ≡ line }
    ensures memory { error ≡ StateError.OutOfMemory → result ≡ ScriptError.Memory }
    ensures no_fault { result ≢ ScriptError.Fault }
{
    match error {
        StateError::OutOfMemory => ScriptError::Memory,
        _ => ScriptError::BadLine(line),
    }
}

// Has the run go by the options of a line, where there is one.
fn set_options(run: &mut Run, options: Option<Item>) -> Result<(), ScriptError>
    requires new { Keeps None run.old [] [] }
    requires options { AreOfOptions options }
    ensures set { OnOk result (AreOptionsOf options (options_of run.new.hub)) }
    ensures start { OnOk result (outside run.new ≡ start_of []) }
    ensures only_memory { IfErr result (λ e. e ≡ ScriptError.Memory) }
{
    let Some(options) = options else {
        return Ok(());
    };
    match run.set_up(options) {
        Ok(()) => Ok(()),
        Err(_) => Err(ScriptError::Memory),
    }
}

// The state of the lines, where the line of two hyphens stands behind them.
fn state_of(alloc: Global, head: &Head) -> Result<HubState, ScriptError>
    ensures told { (texts : List (List ℕ)) → KeepsLines head.now texts → GivesState head.now texts result }
    ensures form { IfOk result IsForm }
    ensures no_fault { IfErr result (λ e. e ≢ ScriptError.Fault) }
{
    match decode_state(alloc, head.text.as_slice()) {
        Ok(state) => {
            if head.is_closed {
                Ok(state)
            } else {
                Err(ScriptError::BadLine(head.last()))
            }
        }
        Err(StateError::BadLine(k)) => Err(ScriptError::BadLine(head.first() + k)),
        Err(_) => Err(ScriptError::Memory),
    }
}

// The links that slots and jobs of a state name.
fn links_of(alloc: Global, state: &HubState) -> Result<Vec<u64>, AllocError>
    ensures { IfOk result (λ links. links.items ≡ links_named state.now) }
{
    let mut links = Vec::new(alloc);
    push_of_slots(&mut links, state.slots.as_slice())?;
    push_of_jobs(&mut links, state.jobs.as_slice())?;
    Ok(links)
}

// Adds the links that slots have.
fn push_of_slots(links: &mut Vec<u64>, slots: &[SlotLine]) -> Result<(), AllocError>
    ensures { OnOk result (links.new.items ≡ links.old.items ++ flat_map (λ (l : Slot). option_to_list (link_kept l.what)) slots.now) }
{
    for line in slots {
        if let SlotKind::HasLink { number } = line.what {
            links.push(number)?;
        }
    }
    Ok(())
}

// Adds the links of jobs.
fn push_of_jobs(links: &mut Vec<u64>, jobs: &[JobLine]) -> Result<(), AllocError>
    ensures { OnOk result (links.new.items ≡ links.old.items ++ each (λ (l : Job). l.job.number) jobs.now) }
{
    for line in jobs {
        links.push(line.job.number)?;
    }
    Ok(())
}

impl Resumed {
    // Says whether an item may come where it comes: a script that goes on has no options, and an event comes behind the links that
    // the state names, and before the end of the count.
    fn admits(&mut self, item: &Item, run: &Run) -> bool
        ensures admitted { (o : Options) (state : HubState) (items : List Item) (log : List Entry) → Keeps (Some (o, state)) run.now items log → Awaits self.old state items → result ≡ may_go_on state items item.now }
        ensures awaits { (o : Options) (state : HubState) (items : List Item) (log : List Entry) → Keeps (Some (o, state)) run.now items log → Awaits self.old state items → Awaits self.new state items }
        ensures none { result ≡ true → is_event item.now ≡ true → self.new.links.items ≡ [] }
        ensures before { self.new.before ≡ self.old.before }
    {
        match item {
            Item::Options { .. } => false,
            Item::Event(_) => self.has_links(run) && run.events() < u64::MAX,
            _ => true,
        }
    }

    // Says whether each link that the state names has its line.
    fn has_links(&mut self, run: &Run) -> bool
        ensures linked { (o : Options) (state : HubState) (items : List Item) (log : List Entry) → Keeps (Some (o, state)) run.now items log → Awaits self.old state items → result ≡ list_all (λ n. has_link n items) (links_named state) }
        ensures awaits { (o : Options) (state : HubState) (items : List Item) (log : List Entry) → Keeps (Some (o, state)) run.now items log → Awaits self.old state items → Awaits self.new state items }
        ensures none { result ≡ true → self.new.links.items ≡ [] }
        ensures before { self.new.before ≡ self.old.before }
    {
        if !has_all(run, self.links.as_slice()) {
            return false;
        }
        self.links.clear();
        true
    }
}

// Says whether the run has all of these links.
fn has_all(run: &Run, links: &[u64]) -> bool
    ensures { result ≡ list_all (λ n. is_linked run.now.links n) links.now }
{
    links.iter().all(|number| run.has_link(*number))
}

// Reads a line and does what it asks for. It gives the status where the run is at its end.
fn go_on<S: Source, K: Sink>(
    alloc: Global,
    resumed: &mut Resumed,
    reader: &mut ScriptReader,
    run: &mut Run,
    buffer: &mut [u8],
    source: &mut S,
    sink: &mut K,
) -> Option<Status>
    requires lawful { IsLawful reader.old buffer.old }
    requires resuming { (all : Option (List ℕ)) × (old : Option (List ℕ)) × Resuming all resumed.old reader.old run.old buffer.old (S.left source.old) old (K.written sink.old) }
    ensures goes_on { IfNone result ((all old : Option (List ℕ)) → Resuming all resumed.old reader.old run.old buffer.old (S.left source.old) old (K.written sink.old) →
        Resuming all resumed.new reader.new run.new buffer.new (S.left source.new) old (K.written sink.new)) }
    ensures ended { IfSome result (λ status. (all old : Option (List ℕ)) → Resuming all resumed.old reader.old run.old buffer.old (S.left source.old) old (K.written sink.old) →
        IfSome all (λ bytes. ResumeOutcome status bytes (S.left source.new) old (K.written sink.new))) }
    ensures faults { TellsFaults result (S.faults source.old) (S.faults source.new) (K.faults sink.old) (K.faults sink.new) }
    ensures lawful { IfNone result (IsLawful reader.new buffer.new) }
    ensures moved { IfNone result (reader.old.taken < reader.new.taken) }
{
    match reader.next_item(alloc, buffer, source, run.storage()) {
        Ok(Some(item)) => {
            if resumed.admits(&item, run) {
                taken(run, item, sink)
            } else {
                let bad = ScriptError::BadLine(resumed.before + reader.lines());
                Some(ended(run, bad, sink))
            }
        }
        Ok(None) => Some(Status::Done.after(run.end(sink))),
        Err(ScriptError::BadLine(k)) => Some(ended(
            run,
            ScriptError::BadLine(resumed.before + k),
            sink,
        )),
        Err(ScriptError::Fault) => Some(Status::ReadFault),
        Err(ScriptError::Memory) => Some(Status::OutOfMemory),
    }
}
