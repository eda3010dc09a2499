//! The laws of right logs. The functions do nothing: their clauses are the laws.
ghost use Rattle.ftp_laws.specs.Laws.{RightLogsExist, RightLogsAreDetermined, RightLogsServe, HoldersWait, HoldsOnePort, HoldsEndOnlySo, EachEndsHold};
ghost use Rattle.ftp_laws.specs.Laws.{NoticesAreNumbered, NoticesAreCounted, EndedAreLoggedOut, LiveAreNotLoggedOut, ClientsAreIsolated, ClientsAreServedAlone, ClientsAreAsIfAlone};
ghost use Rattle.ftp_laws.specs.Laws.{LinksTakeOneJob, SessionsRunOneJob, StartsOnOwnLink, EndsSetOffset, OffsetsLast};
ghost use Rattle.ftp_laws.specs.Laws.{QueuedHaveFates, SettledDoNotWait, SettledOnce, QueuedOnce, RunningAreInNoSlot, RunningAreUnsettled, CancelledOnlySo, CancelledWithSlot};
ghost use Rattle.ftp_laws.specs.Laws.{EarlierEndsAreOfRunning, AwaitedPortsAreHeld, WaitingAreAsQueued, RunningAreAsQueued, RunningAreAsStarted};
ghost use Rattle.ftp_laws.specs.Laws.{NothingIsLeft, NewcomersAreClosed, OnlyEndsAreServed, StopsAgainDoNothing, NoHeaderIsRead, StopsPartWithAll, LiveAreInOrder, PartingsAreTheSame, EmptySlotsHaveNoAge, SlotsNeedLogins, WaitingAreInSlots, WaitingAreOfUsers};
ghost use Rattle.ftp_laws.specs.Laws.{LiveAreCounted, RunningAreCounted, RepliesFollowOpenings, SweepsChangeNothing, ScavengesChangeNothing, PassiveRepliesAreReadBack, PiecesAreCounted, AbortedAreMarked};

/// There is one right and acted log for given events and answers.
///
/// # Proved
///
/// - There is one right and acted log for given events and answers (`found`, `determined`).
pub fn right_logs_are_determined()
    ensures found { RightLogsExist }
    ensures determined { RightLogsAreDetermined }
{}

/// Every data connection that is not refused is attached to the session that holds its client address and port, or
/// is turned away with a `Close`: where nobody holds them, or where it and the session came through two proxies.
/// Every admitted PASV is granted the first free port, or is told that there is none.
pub fn right_logs_serve()
    ensures served { RightLogsServe }
{}

/// A port is held for a client by a live session of that client whose slot waits for it.
///
/// # Proved
///
/// - A port is held for a client exactly by the live session of that client whose slot waits for it, and a session
///   holds one port at most (sessions share the ports) (`holders`, `one_port`).
pub fn holders_wait()
    ensures holders { HoldersWait }
    ensures one_port { HoldsOnePort }
{}

/// A hold ends only by a data connection, by a grant of another port to its holder, by the connection of a PORT or an
/// ABOR of its holder, with its holder, or by a stop.
///
/// # Proved
///
/// - A hold ends only by a data connection to its key, by whichever proxy it came and whether it is attached or turned
///   away, by a grant of another port to its holder, by the connection of a PORT of its holder, by an ABOR of its
///   holder, with its holder, or by a stop, and each of these ends it, unless it was refused (`only_so`, `each`).
pub fn holds_end()
    ensures only_so { HoldsEndOnlySo }
    ensures each { EachEndsHold }
{}

/// The notifications of a session are numbered 1, 2, 3 and so on, as the session counts them.
///
/// # Proved
///
/// - The notifications of a session are numbered 1, 2, 3 without gaps (`numbered`, `counted`).
pub fn notices_are_numbered()
    ensures numbered { NoticesAreNumbered }
    ensures counted { NoticesAreCounted }
{}

/// Listeners are told once that a session has logged out: last, and only when it has ended.
///
/// # Proved
///
/// - The last notification of a session that has ended says that it has logged out, and no other one does (`ended`,
///   `live`).
pub fn logged_out_comes_last()
    ensures ended { EndedAreLoggedOut }
    ensures live { LiveAreNotLoggedOut }
{}

/// A link takes at most one transfer.
///
/// # Proved
///
/// - A link takes one transfer at most (`links`).
pub fn links_take_one_job()
    ensures links { LinksTakeOneJob }
{}

/// One transfer of a session runs at most: those that were started are those that were completed, and one
/// more while a job runs. Each starts on a link that was attached to its session, or taken for a PORT of it.
///
/// # Proved
///
/// - The transfers that a session has started are those of it that were completed or cut, and one more where a job
///   runs; so one runs at a time (`jobs`).
/// - A transfer starts on a link that its entry, or an earlier one, attached to its session, or took for a PORT of it
///   (`links`).
pub fn sessions_run_one_job()
    ensures jobs { SessionsRunOneJob }
    ensures links { StartsOnOwnLink }
{}

/// Each transfer was queued once and has one fate: it waits, it runs, or it was completed or cancelled, once.
///
/// # Proved
///
/// - A transfer has a fate exactly where it was queued: completed or cancelled by an entry, or waiting for its data
///   connection, for its end, or for the end of an earlier one; one that runs is in no slot, so that it has one fate
///   (`queued`, `apart`).
/// - One that was completed or cancelled waits for nothing, and is neither again (`settled`, `once`).
/// - A transfer is queued once at most (`queued_once`).
/// - One that runs was queued, and was neither completed nor cancelled (`running`).
pub fn transfers_have_one_fate()
    ensures queued { QueuedHaveFates }
    ensures queued_once { QueuedOnce }
    ensures settled { SettledDoNotWait }
    ensures once { SettledOnce }
    ensures apart { RunningAreInNoSlot }
    ensures running { RunningAreUnsettled }
{}

/// A transfer that waits for an earlier end has an earlier transfer of its session running; one that waits for
/// a connection has its session holding the port, where the sessions share the ports.
///
/// # Proved
///
/// - While a transfer waits for an earlier end, a transfer of its session with a smaller number runs (`earlier`).
/// - While one waits for a connection, its session holds the port for which its slot waits (sessions share the ports)
///   (`port`).
pub fn transfers_wait_for_what_comes()
    ensures earlier { EarlierEndsAreOfRunning }
    ensures port { AwaitedPortsAreHeld }
{}

/// A transfer that waits or runs has the user, the command, the path and the offset that its session gave it when
/// it was queued, and one that runs does so on the link on which it was started.
///
/// # Proved
///
/// - One that waits or runs has the user, the command, the path and the offset that its session gave it when it was
///   queued (`waiting`, `running`).
/// - One that runs was started on the link of its job, and on no other (`link`).
pub fn transfers_are_fixed_when_queued()
    ensures waiting { WaitingAreAsQueued }
    ensures running { RunningAreAsQueued }
    ensures link { RunningAreAsStarted }
{}

/// A transfer is cancelled exactly where its session loses the slot in which it waits: by another grant, by the
/// connection of a PORT, by a data connection for the session that is turned away while the slot waits, by a look at a
/// slot that stood too long, by an ABOR, or by the session's end, alone or with all others.
///
/// # Proved
///
/// - A transfer is cancelled exactly where its session loses the slot in which it waits, or it runs and is cut; so only
///   by another grant, the connection of a PORT, one that is turned away, a slot that stood too long, an ABOR, its cut,
///   or the end of a session, where that concerns its session, as a stop concerns every one (`with_slot`, `only_so`).
pub fn transfers_are_cancelled_with_their_slot()
    ensures with_slot { CancelledWithSlot }
    ensures only_so { CancelledOnlySo }
{}

/// A live session's restart offset lasts until its next REST that is taken, or until the end of a RETR,
/// STOR or APPE of it that succeeded, which sets it to 0.
///
/// # Proved
///
/// - After a RETR, STOR or APPE that succeeded its live session has the restart offset 0, and after any other end of a
///   transfer the one that it had, if the end was decided `Finished` (`offset`).
/// - The restart offset of a session that stays live changes only with a REST of it that is taken, or the end of a
///   RETR, STOR or APPE of it that succeeded (`kept`).
pub fn ends_set_offset()
    ensures offset { EndsSetOffset }
    ensures kept { OffsetsLast }
{}

/// The counts of live sessions and of running jobs are the numbers of those that there are.
///
/// # Proved
///
/// - The count of live sessions is the length of a list that has each of them once and nothing else, and that of
///   running transfers of a list of the sessions for which one runs (`live`, `running`).
pub fn counts_are_exact()
    ensures live { LiveAreCounted }
    ensures running { RunningAreCounted }
{}

/// No reply goes to a number that no entry has opened as a session.
///
/// # Proved
///
/// - No reply goes to a number that no entry opened as a session (`replies`).
pub fn replies_follow_openings()
    ensures replies { RepliesFollowOpenings }
{}

/// The entries of one client address, with those that concern every client, are right by themselves, where failed
/// logins of one address lock no other, and acted but for a Shutdown, whose actions name every session. With the
/// headers of the client's own connections and the outcomes of its own transfers given, it is granted, attached,
/// refused and told what it would be with nobody else there.
///
/// # Proved
///
/// - Isolation: what a client address is granted, attached and refused, and all else in its entries, follows from its
///   own events, the headers with its address as source, and the outcomes of its own transfers: these entries are a
///   right log by themselves, and what is decided and done with each is what those events, headers and outcomes give
///   with nobody else there, but for the actions of a stop, which names every session (`SameServed`). Without a stop
///   they are that log. The outcomes are given, as files are shared: what another address stored is what a RETR finds.
///   An entry whose header is none is no client's; a sweep, a scavenging and a stop are every client's (nobody else
///   brings in a number that an entry of the client carries (`IsApart`); failed logins of one address lock no other
///   (`locks_by_address`); sessions share the ports) (`isolated`, `served`, `alone`).
pub fn client_part_is_right_and_acted()
    ensures isolated { ClientsAreIsolated }
    ensures served { ClientsAreServedAlone }
    ensures alone { ClientsAreAsIfAlone }
{}

/// Where moments never fall, forgetting failed logins that are too old changes nothing that is decided or done later.
///
/// # Proved
///
/// - Forgetting failed logins that are too old changes nothing later: without the entry that does so the log is right
///   and acted too, and the same entry is next (moments never fall along the log (`NeverFalls`), nor with the next
///   event) (`sweeps`).
pub fn sweeps_change_nothing()
    ensures sweeps { SweepsChangeNothing }
{}

/// After a stop no session is live, nobody holds a port, and nothing is opened, attached, granted or read: what comes
/// is turned away and closed, or refused, and only the jobs that ran still end.
///
/// # Proved
///
/// - After a stop no session is live, and nobody holds a port; every connection that is not refused is turned away and
///   closed; no header is read; of a session only the pieces and the end of a transfer that runs count; a second stop
///   does nothing (`left`, `newcomers`, `ends`, `again`, `headers`).
pub fn stops_last()
    ensures left { NothingIsLeft }
    ensures newcomers { NewcomersAreClosed }
    ensures ends { OnlyEndsAreServed }
    ensures again { StopsAgainDoNothing }
    ensures headers { NoHeaderIsRead }
{}

/// A stop parts with each live session, in order of their numbers.
///
/// # Proved
///
/// - A stop does of each live session, in order of their numbers, what an ending does: its transfer that waits is
///   cancelled, its link closed, its going told, its own connection closed (`parts`, `in_order`, `each`).
pub fn stops_part_with_all()
    ensures parts { StopsPartWithAll }
    ensures in_order { LiveAreInOrder }
    ensures each { PartingsAreTheSame }
{}

/// Looking for what is held for no session changes nothing that is decided or done later.
///
/// # Proved
///
/// - Freeing the ports of sessions that have ended changes nothing later, as there are none: without the entry that
///   does so the log is right and acted too, and the same entry is next (`scavenges`).
pub fn scavenges_change_nothing()
    ensures scavenges { ScavengesChangeNothing }
{}

/// The six numbers that a 227 shows, as the text of a PORT, ask for the address and the port that were advertised
/// (RFC 959, section 4.1.2).
pub fn passive_replies_are_read_back()
    ensures read_back { PassiveRepliesAreReadBack }
{}

/// A transfer that runs has moved the bytes of its pieces, and is to stop where an ABOR of its session came after its start.
///
/// # Proved
///
/// - One that runs counts the bytes of all its pieces, and is to stop exactly where an ABOR of its session that was to
///   stop it came after its start (`counted`, `marked`).
pub fn pieces_add_up()
    ensures counted { PiecesAreCounted }
    ensures marked { AbortedAreMarked }
{}

/// The age of a slot counts from no moment where the slot is empty.
///
/// # Proved
///
/// - A live session whose slot is empty has the moment 0 for it (`empty`).
pub fn empty_slots_have_no_age()
    ensures empty { EmptySlotsHaveNoAge }
{}

/// A slot has something only where its session is logged in, and a transfer waits only in such a slot, for the user of the
/// session.
///
/// # Proved
///
/// - The slot of a session that is not logged in is empty (`logged_in`).
/// - A transfer waits only in a slot that has a port or a link, for the user who is logged in (`placed`, `user`).
pub fn slots_are_of_users()
    ensures logged_in { SlotsNeedLogins }
    ensures placed { WaitingAreInSlots }
    ensures user { WaitingAreOfUsers }
{}
