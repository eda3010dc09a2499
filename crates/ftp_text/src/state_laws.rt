//! What holds of states and their lines. The functions do nothing: their clauses are the laws.

ghost use Rattle.std.specs.Prelude.{◌≡◌, List};
ghost use Rattle.std.specs.List.{AllByRecursion};
ghost use Rattle.ftp_options.specs.declared.options.Options.{Options};
ghost use Rattle.ftp_events.specs.declared.entry.Entry.{Entry};
ghost use Rattle.ftp_events.specs.Right.{IsRight};
ghost use Rattle.ftp_hub.specs.declared.state.HubState.{HubState};
ghost use Rattle.ftp_hub.specs.State.{IsState};
ghost use Rattle.ftp_text.specs.declared.state_line.StateLine.{StateLine};
ghost use Rattle.ftp_text.specs.Grammar.{AreStateLines};
ghost use Rattle.ftp_text.specs.ListOrder.{AreFromRoot, AreListsInOrder};
ghost use Rattle.ftp_text.specs.Spelling.{IsStateLine};
ghost use Rattle.ftp_text.specs.Walk.{walk};

/// A state has one text.
///
/// # Proved
///
/// - A state has at most one list of lines.
pub fn a_state_has_one_text()
    ensures { (x : HubState) (a b : List StateLine) → AreStateLines x a → AreStateLines x b → a ≡ b }
{}

/// The lists of a state that has lines are in order.
///
/// # Proved
///
/// - The lists of a state that has lines are in order: intervals do not touch, records rise by key and are of one policy,
///   sessions, slots, transfers and jobs rise by number, each slot is of a session, each waiting transfer of a slot.
pub fn lines_give_lists_in_order()
    ensures { (x : HubState) (lines : List StateLine) → AreStateLines x lines → AreListsInOrder x }
{}

/// The lists of a state that are in order have lines.
///
/// # Proved
///
/// - A state whose lists are in order has lines, if what they say fits its types and each directory and path begins with a
///   slash.
pub fn lists_in_order_have_lines()
    ensures { (x : HubState) → AreListsInOrder x → AllByRecursion IsStateLine (walk x) → AreStateLines x (walk x) }
{}

/// The paths of a state that some right log has begin with a slash.
///
/// # Proved
///
/// - Each directory of a session and each path of a transfer begins with a slash in a state that some right log has, if its
///   lists are in order.
pub fn states_of_logs_begin_at_the_root()
    ensures { (o : Options) (log : List Entry) (x : HubState) → IsRight o log → IsState o log x → AreListsInOrder x → AreFromRoot x }
{}
