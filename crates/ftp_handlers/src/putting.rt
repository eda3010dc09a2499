//! What a step puts into its room: actions, notices and replies.

ghost use Rattle.std.specs.Prelude.{◌≡◌, ◌+◌, ◌<◌, ◌≤◌, true, false, [], ◌∷◌, ◌++◌, length, codes, IsTrue, Some};
ghost use Rattle.ftp_base.specs.declared.notice.Notice.TheVariants.{Presence, Data};
ghost use Rattle.ftp_base.specs.declared.reply.Reply.TheVariants as reply;
ghost use Rattle.ftp_base.specs.declared.reply.ReplyCode.TheVariants as code;
ghost use Rattle.ftp_events.specs.declared.action.Action.TheVariants as action;
ghost use Rattle.ftp_events.specs.Acts.{cancellations, cancelled, closings, link_in, reply_acts};
ghost use Rattle.ftp_events.specs.Text.{passive_text, offset_text};
ghost use Rattle.ftp_handlers.specs.Rooms.{CanReply, HasPlace, HasPlaces, actions_in, is_plain, kept_in, len_in, twice_in};

use crate::copies::Text;
use crate::room::Room;
use ftp_base::{
    Bytes, DataEvent, EventMeta, Notice, PresenceEvent, Reply, ReplyCode, ReplyText, TraceId,
};
use ftp_events::{Action, Pending, Slot};
use ftp_transfer::Ticket;
use std::mem;

impl Room {
    // Puts an action without texts behind the others.
    fn push(&mut self, action: Action)
        requires place { HasPlace self.old }
        requires plain { IsTrue (is_plain action) }
        ensures actions { actions_in self.new ≡ actions_in self.old ++ action ∷ [] }
        ensures len { len_in self.new ≡ len_in self.old + 1 }
        ensures same { self.new ≡ record self.old { actions = self.new.actions } }
    {
        if self.actions.is_twice() {
            let copy = copy_plain(&action);
            self.actions.push_twice(action, copy);
        } else {
            self.actions.push_once(action);
        }
    }

    /// Closes a connection.
    pub fn close(&mut self, number: u64)
        requires { HasPlace self.old }
        ensures actions { actions_in self.new ≡ actions_in self.old ++ action.Close number ∷ [] }
        ensures len { len_in self.new ≡ len_in self.old + 1 }
        ensures same { self.new ≡ record self.old { actions = self.new.actions } }
    {
        self.push(Action::Close { number });
    }

    /// Closes the link that a slot has.
    pub fn close_link(&mut self, slot: Slot)
        requires { HasPlace self.old }
        ensures actions { actions_in self.new ≡ actions_in self.old ++ closings (link_in slot) }
        ensures len { len_in self.new ≤ len_in self.old + 1 }
        ensures same { self.new ≡ record self.old { actions = self.new.actions } }
    {
        match slot {
            Slot::Linked { number } => self.close(number),
            Slot::Empty | Slot::Waits { .. } => {}
        }
    }

    /// A transfer has ended.
    pub fn complete(&mut self, ticket: Ticket, delivered: bool)
        requires { HasPlace self.old }
        ensures actions { actions_in self.new ≡ actions_in self.old ++ action.Completed ticket delivered ∷ [] }
        ensures len { len_in self.new ≡ len_in self.old + 1 }
        ensures same { self.new ≡ record self.old { actions = self.new.actions } }
    {
        self.push(Action::Completed { ticket, delivered });
    }

    /// A transfer runs on a link.
    pub fn start(&mut self, ticket: Ticket, number: u64)
        requires { HasPlace self.old }
        ensures actions { actions_in self.new ≡ actions_in self.old ++ action.Start ticket number ∷ [] }
        ensures same { self.new ≡ record self.old { actions = self.new.actions } }
    {
        self.push(Action::Start { ticket, number });
    }

    /// A transfer is dropped whose session ends.
    pub fn cancel(&mut self, session: u64, pending: Option<Pending>)
        requires { HasPlace self.old }
        ensures actions { actions_in self.new ≡ actions_in self.old ++ cancellations session false pending }
        ensures len { len_in self.new ≤ len_in self.old + 1 }
        ensures same { self.new ≡ record self.old { actions = self.new.actions } }
    {
        if let Some(pending) = pending {
            let ticket = pending.ticket;
            self.push(Action::Cancelled { ticket });
        }
    }

    /// A transfer is dropped, and its session is told.
    pub fn cancel_and_tell(&mut self, session: u64, pending: Option<Pending>)
        requires { HasPlaces 2 self.old }
        ensures actions { actions_in self.new ≡ actions_in self.old ++ cancellations session true pending }
        ensures len { len_in self.new ≤ len_in self.old + 2 }
        ensures same { self.new ≡ record self.old { actions = self.new.actions; dropped = self.new.dropped } }
    {
        if let Some(pending) = pending {
            let ticket = pending.ticket;
            self.push(Action::Cancelled { ticket });
            self.tell_dropped(session);
        }
    }

    /// A transfer is cut that ran on this link for a session that has ended.
    pub fn cut(&mut self, session: u64, ticket: Ticket, number: u64)
        requires { HasPlaces 2 self.old }
        ensures actions { actions_in self.new ≡ actions_in self.old ++ cancelled session false ticket ++ closings (Some number) }
        ensures len { len_in self.new ≡ len_in self.old + 2 }
        ensures same { self.new ≡ record self.old { actions = self.new.actions } }
    {
        self.push(Action::Cancelled { ticket });
        self.close(number);
    }

    /// A transfer is cut that ran on this link, and its session is told.
    pub fn cut_and_tell(&mut self, session: u64, ticket: Ticket, number: u64)
        requires { HasPlaces 3 self.old }
        ensures actions { actions_in self.new ≡ actions_in self.old ++ cancelled session true ticket ++ closings (Some number) }
        ensures len { len_in self.new ≡ len_in self.old + 3 }
        ensures same { self.new ≡ record self.old { actions = self.new.actions; dropped = self.new.dropped } }
    {
        self.push(Action::Cancelled { ticket });
        self.tell_dropped(session);
        self.close(number);
    }

    // Tells a session that its transfer is dropped.
    fn tell_dropped(&mut self, session: u64)
        requires { HasPlace self.old }
        ensures actions { actions_in self.new ≡ actions_in self.old ++ action.Reply session 0 (reply.CodeAndMsg code.ConnectionClosed (codes "Datachannel unexpectedly closed")) ∷ [] }
        ensures len { len_in self.new ≡ len_in self.old + 1 }
        ensures same { self.new ≡ record self.old { actions = self.new.actions; dropped = self.new.dropped } }
    {
        self.speak(
            session,
            0,
            ReplyCode::ConnectionClosed,
            b"Datachannel unexpectedly closed",
        );
    }

    // Sends words of the program as a reply.
    fn speak(&mut self, session: u64, delay: u32, code: ReplyCode, words: &'static [u8])
        requires { HasPlace self.old }
        ensures actions { actions_in self.new ≡ actions_in self.old ++ action.Reply session delay (reply.CodeAndMsg code words.now) ∷ [] }
        ensures len { len_in self.new ≡ len_in self.old + 1 }
        ensures same { self.new ≡ record self.old { actions = self.new.actions } }
    {
        let reply = coded(code, ReplyText::from_static(words));
        let copy = coded(code, ReplyText::from_static(words));
        self.send_reply(session, delay, reply, copy);
    }

    /// Tells listeners that the user whom the event tells is here or gone.
    pub fn notify_presence(
        &mut self,
        session: u64,
        trace: u64,
        sequence_number: u64,
        what: PresenceEvent,
    )
        requires { HasPlace self.old }
        ensures actions { actions_in self.new ≡ actions_in self.old ++ action.Notify session (record { username = kept_in self.old; trace_id = record { 0 = trace }; sequence_number = sequence_number }) (Presence what) ∷ [] }
        ensures len { len_in self.new ≡ len_in self.old + 1 }
        ensures same { self.new ≡ record self.old { actions = self.new.actions; kept = self.new.kept } }
    {
        self.notify(
            session,
            trace,
            sequence_number,
            Notice::Presence(what),
            Some(Notice::Presence(what)),
        );
    }

    /// Tells listeners what the user whom the event tells has done to a file or a directory.
    pub fn notify_data(
        &mut self,
        session: u64,
        trace: u64,
        sequence_number: u64,
        what: DataEvent,
        copy: Option<DataEvent>,
    )
        requires place { HasPlace self.old }
        requires equal { IsTrue (twice_in self.old) → copy ≡ Some what }
        ensures actions { actions_in self.new ≡ actions_in self.old ++ action.Notify session (record { username = kept_in self.old; trace_id = record { 0 = trace }; sequence_number = sequence_number }) (Data what) ∷ [] }
        ensures len { len_in self.new ≡ len_in self.old + 1 }
        ensures same { self.new ≡ record self.old { actions = self.new.actions; kept = self.new.kept } }
    {
        let copy = match copy {
            Some(copy) => Some(Notice::Data(copy)),
            None => None,
        };
        self.notify(session, trace, sequence_number, Notice::Data(what), copy);
    }

    // Tells listeners.
    fn notify(
        &mut self,
        session: u64,
        trace: u64,
        sequence_number: u64,
        what: Notice,
        copy: Option<Notice>,
    )
        requires place { HasPlace self.old }
        requires equal { IsTrue (twice_in self.old) → copy ≡ Some what }
        ensures actions { actions_in self.new ≡ actions_in self.old ++ action.Notify session (record { username = kept_in self.old; trace_id = record { 0 = trace }; sequence_number = sequence_number }) what ∷ [] }
        ensures len { len_in self.new ≡ len_in self.old + 1 }
        ensures same { self.new ≡ record self.old { actions = self.new.actions; kept = self.new.kept } }
    {
        let (username, username_copy) = self.take_both();
        let meta_once = meta(username, trace, sequence_number);
        let action = Action::Notify {
            session,
            meta: meta_once,
            what,
        };
        if !self.actions.is_twice() {
            self.actions.push_once(action);
            return;
        }
        let Some(what) = copy else { unreachable!() };
        let meta_copy = meta(username_copy, trace, sequence_number);
        self.actions.push_twice(
            action,
            Action::Notify {
                session,
                meta: meta_copy,
                what,
            },
        );
    }

    /// Sends a reply as it is, where there is one.
    pub fn answer(&mut self, session: u64, reply: Reply, copy: Reply)
        requires place { HasPlace self.old }
        requires equal { IsTrue (twice_in self.old) → copy ≡ reply }
        ensures actions { actions_in self.new ≡ actions_in self.old ++ reply_acts session 0 reply }
        ensures len { len_in self.new ≤ len_in self.old + 1 }
        ensures same { self.new ≡ record self.old { actions = self.new.actions } }
    {
        if let Reply::None = &reply {
            return;
        }
        self.send_reply(session, 0, reply, copy);
    }

    /// Sends words of the program as a reply at once.
    pub fn reply(&mut self, session: u64, code: ReplyCode, words: &'static [u8])
        requires { HasPlace self.old }
        ensures actions { actions_in self.new ≡ actions_in self.old ++ action.Reply session 0 (reply.CodeAndMsg code words.now) ∷ [] }
        ensures len { len_in self.new ≡ len_in self.old + 1 }
        ensures same { self.new ≡ record self.old { actions = self.new.actions; text = self.new.text } }
    {
        self.reply_late(session, 0, code, words);
    }

    /// Sends words of the program as a reply after a delay in milliseconds.
    pub fn reply_late(&mut self, session: u64, delay: u32, code: ReplyCode, words: &'static [u8])
        requires { HasPlace self.old }
        ensures actions { actions_in self.new ≡ actions_in self.old ++ action.Reply session delay (reply.CodeAndMsg code words.now) ∷ [] }
        ensures len { len_in self.new ≡ len_in self.old + 1 }
        ensures same { self.new ≡ record self.old { actions = self.new.actions; text = self.new.text } }
    {
        self.speak(session, delay, code, words);
    }

    /// Sends what the event keeps as a reply.
    pub fn reply_kept(&mut self, session: u64, code: ReplyCode)
        requires { HasPlace self.old }
        ensures actions { actions_in self.new ≡ actions_in self.old ++ action.Reply session 0 (reply.CodeAndMsg code (kept_in self.old)) ∷ [] }
        ensures len { len_in self.new ≡ len_in self.old + 1 }
        ensures same { self.new ≡ record self.old { actions = self.new.actions; kept = self.new.kept } }
    {
        let none = Text::blank(self.alloc, self.actions.is_twice());
        let text = mem::replace(&mut self.kept, none);
        self.say(session, 0, code, text);
    }

    /// Sends the reply that advertises a passive port.
    pub fn advertise(&mut self, session: u64, ip: u32, port: u16)
        requires place { HasPlace self.old }
        requires empty { self.old.text.items ≡ [] }
        requires room { CanReply 64 self.old }
        ensures actions { actions_in self.new ≡ actions_in self.old ++ action.Reply session 0 (reply.CodeAndMsg code.EnteringPassiveMode (passive_text ip port)) ∷ [] }
        ensures same { self.new ≡ record self.old { actions = self.new.actions; text = self.new.text } }
    {
        self.text.write_passive(ip, port);
        self.send(session, 0, ReplyCode::EnteringPassiveMode);
    }

    /// Sends the reply on a name that was not looked up.
    pub fn tell_unresolved(&mut self, session: u64, name: &[u8])
        requires place { HasPlace self.old }
        requires empty { self.old.text.items ≡ [] }
        requires room { CanReply (64 + length name.now) self.old }
        ensures actions { actions_in self.new ≡ actions_in self.old ++ action.Reply session 0 (reply.CodeAndMsg code.CantOpenDataConnection (codes "Could not resolve DNS address '" ++ name.now ++ codes "'")) ∷ [] }
        ensures same { self.new ≡ record self.old { actions = self.new.actions; text = self.new.text } }
    {
        self.text.write_unresolved(name);
        self.send(session, 0, ReplyCode::CantOpenDataConnection);
    }

    /// Sends the reply that tells a restart offset.
    pub fn restart(&mut self, session: u64, offset: u64)
        requires place { HasPlace self.old }
        requires empty { self.old.text.items ≡ [] }
        requires room { CanReply 64 self.old }
        ensures actions { actions_in self.new ≡ actions_in self.old ++ action.Reply session 0 (reply.CodeAndMsg code.FileActionPending (offset_text offset)) ∷ [] }
        ensures same { self.new ≡ record self.old { actions = self.new.actions; text = self.new.text } }
    {
        self.text.write_offset(offset);
        self.send(session, 0, ReplyCode::FileActionPending);
    }

    // Sends the text as a reply.
    fn send(&mut self, session: u64, delay: u32, code: ReplyCode)
        requires { HasPlace self.old }
        ensures actions { actions_in self.new ≡ actions_in self.old ++ action.Reply session delay (reply.CodeAndMsg code self.old.text.items) ∷ [] }
        ensures len { len_in self.new ≡ len_in self.old + 1 }
        ensures same { self.new ≡ record self.old { actions = self.new.actions; text = self.new.text } }
    {
        let none = Text::blank(self.alloc, self.actions.is_twice());
        let text = mem::replace(&mut self.text, none);
        self.say(session, delay, code, text);
    }

    // Sends a text as a reply.
    #[inline(always)]
    fn say(&mut self, session: u64, delay: u32, code: ReplyCode, text: Text)
        requires place { HasPlace self.old }
        requires equal { text.twice ≡ twice_in self.old }
        ensures actions { actions_in self.new ≡ actions_in self.old ++ action.Reply session delay (reply.CodeAndMsg code text.items) ∷ [] }
        ensures len { len_in self.new ≡ len_in self.old + 1 }
        ensures same { self.new ≡ record self.old { actions = self.new.actions } }
    {
        let (msg, copy) = text.into_both();
        let reply = coded(code, ReplyText::from_bytes(msg));
        let copy = coded(code, ReplyText::from_bytes(copy));
        self.send_reply(session, delay, reply, copy);
    }

    // Sends a reply, and its copy where each action is put in twice.
    #[inline(always)]
    fn send_reply(&mut self, session: u64, delay: u32, reply: Reply, copy: Reply)
        requires place { HasPlace self.old }
        requires equal { IsTrue (twice_in self.old) → copy ≡ reply }
        ensures actions { actions_in self.new ≡ actions_in self.old ++ action.Reply session delay reply ∷ [] }
        ensures len { len_in self.new ≡ len_in self.old + 1 }
        ensures same { self.new ≡ record self.old { actions = self.new.actions } }
    {
        let action = reply_action(session, delay, reply);
        if self.actions.is_twice() {
            let copy = reply_action(session, delay, copy);
            self.actions.push_twice(action, copy);
        } else {
            self.actions.push_once(action);
        }
    }
}

// A copy of an action without texts.
fn copy_plain(action: &Action) -> Action
    requires { IsTrue (is_plain action.now) }
    ensures { result ≡ action.now }
{
    match action {
        Action::Completed { ticket, delivered } => Action::Completed {
            ticket: *ticket,
            delivered: *delivered,
        },
        Action::Cancelled { ticket } => Action::Cancelled { ticket: *ticket },
        Action::Close { number } => Action::Close { number: *number },
        Action::Start { ticket, number } => Action::Start {
            ticket: *ticket,
            number: *number,
        },
        Action::Notify { .. } | Action::Reply { .. } => unreachable!(),
    }
}

// A reply that is sent after a delay.
fn reply_action(session: u64, delay: u32, reply: Reply) -> Action
    ensures { result ≡ action.Reply session delay reply }
{
    Action::Reply {
        session,
        delay,
        reply,
    }
}

// A text with its code.
fn coded(code: ReplyCode, msg: ReplyText) -> Reply
    ensures { result ≡ reply.CodeAndMsg code msg }
{
    Reply::CodeAndMsg { code, msg }
}

// Whom a notice is about.
fn meta(username: Bytes, trace: u64, sequence_number: u64) -> EventMeta
    ensures { result ≡ record { username = username; trace_id = record { 0 = trace }; sequence_number = sequence_number } }
{
    EventMeta {
        username,
        trace_id: TraceId::new(trace),
        sequence_number,
    }
}
