//! Texts and actions that are written once, or twice so that each can be given to two.

ghost use Rattle.std.specs.Prelude.{◌≡◌, ◌+◌, ◌<◌, ◌≤◌, Bool, IsTrue, true, false, [], ◌∷◌, ◌++◌, List, length, codes, IfOk, OnOk, vec_len, vec_capacity, if◌then◌else◌};
ghost use Rattle.ftp_events.specs.Text.{passive_text, offset_text};
ghost use Rattle.ftp_handlers.specs.Copies.{IsWide};

use ftp_base::Bytes;
use ftp_events::{Action, Actions, wording, write_offset_text, write_passive_text, write_words};
use std::alloc::{AllocError, Global};
use std::marker::Model;
use std::mem;

/// A text's buffer, once or twice.
#[derive(Drop)]
pub(crate) struct Text {
    first: Vec<u8>,
    // Equal to the first where the text is written twice, and else empty.
    second: Vec<u8>,
    twice: bool,
}

impl Model for Text {
    ghost use Rattle.std.specs.Prelude.{◌≡◌, [], vec_capacity, if◌then◌else◌};
    ghost use Rattle.ftp_handlers.specs.Copies.{TextState};

    ghost Value = { TextState };

    ghost view = { λ t. record { items = t.first.items; room = vec_capacity t.first; copy_room = (if t.twice then vec_capacity t.second else vec_capacity t.first); twice = t.twice } };

    ghost invariant = { λ t. t.second.items ≡ (if t.twice then t.first.items else []) };
}

impl Text {
    /// A text with no letters and no room.
    pub fn blank(alloc: Global, twice: bool) -> Text
        ensures items { result.items ≡ [] }
        ensures twice { result.twice ≡ twice }
    {
        Text {
            first: Vec::new(alloc),
            second: Vec::new(alloc),
            twice,
        }
    }

    /// Lets the letters go. The buffers stay.
    pub fn clear(&mut self, twice: bool)
        ensures items { self.new.items ≡ [] }
        ensures twice { self.new.twice ≡ twice }
    {
        self.first.clear();
        self.second.clear();
        self.twice = twice;
    }

    /// Takes memory for a text of so many bytes, where it is asked for and there is no room yet.
    pub fn make_room(&mut self, asked: bool, width: usize) -> Result<(), AllocError>
        ensures items { self.new.items ≡ self.old.items }
        ensures room { OnOk result (IsTrue asked → IsWide width self.new) }
        ensures twice { self.new.twice ≡ self.old.twice }
    {
        if !asked {
            return Ok(());
        }
        self.first.reserve_exact(width)?;
        if self.twice {
            self.second.reserve_exact(width)?;
        }
        Ok(())
    }

    /// Takes over a text in the place of another, and copies it where it is to be there twice.
    pub fn hold(&mut self, text: Bytes) -> Result<(), AllocError>
        requires empty { self.old.items ≡ [] }
        ensures items { OnOk result (self.new.items ≡ text) }
        ensures twice { self.new.twice ≡ self.old.twice }
    {
        if self.twice {
            self.second.extend_from_slice(text.as_slice())?;
        }
        self.first = text.into_vec();
        Ok(())
    }

    /// Takes over a text, and copies it where it is to be there twice.
    pub fn of(alloc: Global, text: Bytes, twice: bool) -> Result<Text, AllocError>
        ensures items { IfOk result (λ made. made.items ≡ text) }
        ensures twice { IfOk result (λ made. made.twice ≡ twice) }
    {
        let second = if twice {
            Vec::from_slice(alloc, text.as_slice())?
        } else {
            Vec::new(alloc)
        };
        Ok(Text {
            first: text.into_vec(),
            second,
            twice,
        })
    }

    /// Writes that a name was not looked up.
    pub fn write_unresolved(&mut self, name: &[u8])
        requires empty { self.old.items ≡ [] }
        requires wide { IsWide (64 + length name.now) self.old }
        ensures items { self.new.items ≡ codes "Could not resolve DNS address '" ++ name.now ++ codes "'" }
        ensures twice { self.new.twice ≡ self.old.twice }
    {
        put_unresolved(&mut self.first, name);
        if self.twice {
            put_unresolved(&mut self.second, name);
        }
    }

    /// Writes the text of a passive reply.
    pub fn write_passive(&mut self, ip: u32, port: u16)
        requires empty { self.old.items ≡ [] }
        requires wide { IsWide 64 self.old }
        ensures items { self.new.items ≡ passive_text ip port }
        ensures twice { self.new.twice ≡ self.old.twice }
    {
        write_passive_text(&mut self.first, ip, port);
        if self.twice {
            write_passive_text(&mut self.second, ip, port);
        }
    }

    /// Writes the text that answers a restart offset.
    pub fn write_offset(&mut self, offset: u64)
        requires empty { self.old.items ≡ [] }
        requires wide { IsWide 64 self.old }
        ensures items { self.new.items ≡ offset_text offset }
        ensures twice { self.new.twice ≡ self.old.twice }
    {
        write_offset_text(&mut self.first, offset);
        if self.twice {
            write_offset_text(&mut self.second, offset);
        }
    }

    /// Takes the text out. The buffer of its copy stays.
    pub fn take(&mut self, alloc: Global) -> Bytes
        ensures text { result ≡ self.old.items }
        ensures items { self.new.items ≡ [] }
        ensures twice { self.new.twice ≡ self.old.twice }
    {
        self.second.clear();
        Bytes::from_vec(mem::replace(&mut self.first, Vec::new(alloc)))
    }

    /// A text and its copy, which is empty where the text is there once.
    pub fn from_both(first: Bytes, second: Bytes, twice: bool) -> Text
        requires same { second ≡ (if twice then first else []) }
        ensures items { result.items ≡ first }
        ensures twice { result.twice ≡ twice }
    {
        Text {
            first: first.into_vec(),
            second: second.into_vec(),
            twice,
        }
    }

    /// Gives the text, and its copy, which is empty where the text is there once.
    pub fn into_both(self) -> (Bytes, Bytes)
        ensures first { result.0 ≡ self.items }
        ensures second { result.1 ≡ (if self.twice then self.items else []) }
    {
        let Text {
            first,
            second,
            twice: _,
        } = self;
        (Bytes::from_vec(first), Bytes::from_vec(second))
    }
}

// Writes that a name was not looked up into an empty buffer.
fn put_unresolved(text: &mut Vec<u8>, name: &[u8])
    requires empty { text.old.items ≡ [] }
    requires room { 64 + length name.now ≤ vec_capacity text.old }
    ensures { text.new.items ≡ codes "Could not resolve DNS address '" ++ name.now ++ codes "'" }
{
    write_words(text, wording::UNRESOLVED);
    write_words(text, name);
    write_words(text, b"'");
}

/// The actions of an event, once or twice.
#[derive(Drop)]
pub(crate) struct ActionList {
    first: Vec<Action>,
    // Equal to the first where the actions are put in twice, and else empty.
    second: Vec<Action>,
    // Empty lists of the length that the actions of most events of a kind have: each is given away with its actions.
    fitting: Vec<Action>,
    fitting_copy: Vec<Action>,
    twice: bool,
}

impl Model for ActionList {
    ghost use Rattle.std.specs.Prelude.{◌≡◌, [], min, vec_capacity, if◌then◌else◌};
    ghost use Rattle.ftp_handlers.specs.Copies.{ListState};

    ghost Value = { ListState };

    ghost view = { λ l. record { items = l.first.items; places = (if l.twice then min (vec_capacity l.first) (vec_capacity l.second) else vec_capacity l.first); twice = l.twice } };

    ghost invariant = { λ l. (l.second.items ≡ (if l.twice then l.first.items else [])) × (l.fitting.items ≡ []) × (l.fitting_copy.items ≡ []) };
}

impl ActionList {
    /// No actions, and no places.
    pub fn blank(alloc: Global, twice: bool) -> ActionList
        ensures items { result.items ≡ [] }
        ensures twice { result.twice ≡ twice }
    {
        ActionList {
            first: Vec::new(alloc),
            second: Vec::new(alloc),
            fitting: Vec::new(alloc),
            fitting_copy: Vec::new(alloc),
            twice,
        }
    }

    /// Lets the actions go. Their places stay.
    pub fn clear(&mut self, twice: bool)
        ensures items { self.new.items ≡ [] }
        ensures twice { self.new.twice ≡ twice }
    {
        self.first.clear();
        self.second.clear();
        self.twice = twice;
    }

    /// Takes memory for so many actions, where there are fewer places, and for lists of the usual length.
    pub fn make_places(
        &mut self,
        alloc: Global,
        places: usize,
        usual: usize,
    ) -> Result<(), AllocError>
        requires empty { self.old.items ≡ [] }
        ensures items { self.new.items ≡ [] }
        ensures places { OnOk result (places ≤ self.new.places) }
        ensures twice { self.new.twice ≡ self.old.twice }
    {
        self.first.reserve_exact(places)?;
        fit(alloc, &mut self.fitting, usual)?;
        if self.twice {
            self.second.reserve_exact(places)?;
            fit(alloc, &mut self.fitting_copy, usual)?;
        }
        Ok(())
    }

    /// Says whether the actions are put in twice.
    pub fn is_twice(&self) -> bool
        ensures { result ≡ self.now.twice }
    {
        self.twice
    }

    /// Puts an action behind the others, where they are put in once.
    pub fn push_once(&mut self, action: Action)
        requires place { length self.old.items < self.old.places }
        requires once { self.old.twice ≡ false }
        ensures items { self.new.items ≡ self.old.items ++ action ∷ [] }
        ensures len { length self.new.items ≡ length self.old.items + 1 }
        ensures places { self.new.places ≡ self.old.places }
        ensures twice { self.new.twice ≡ self.old.twice }
    {
        self.first.push_reserved(action);
    }

    /// Puts an action behind the others and an equal one behind the copies, where they are put in twice.
    pub fn push_twice(&mut self, action: Action, copy: Action)
        requires place { length self.old.items < self.old.places }
        requires twice { self.old.twice ≡ true }
        requires same { copy ≡ action }
        ensures items { self.new.items ≡ self.old.items ++ action ∷ [] }
        ensures len { length self.new.items ≡ length self.old.items + 1 }
        ensures places { self.new.places ≡ self.old.places }
        ensures twice { self.new.twice ≡ self.old.twice }
    {
        self.first.push_reserved(action);
        self.second.push_reserved(copy);
    }

    /// The actions in order.
    pub fn as_slice(&self) -> &[Action]
        ensures { result.now ≡ self.now.items }
    {
        self.first.as_slice()
    }

    /// Takes the actions out, in order.
    pub fn take_actions(&mut self, alloc: Global) -> Actions
        ensures actions { result ≡ self.old.items }
        ensures twice { self.new.twice ≡ self.old.twice }
    {
        self.second.clear();
        take(alloc, &mut self.first, &mut self.fitting)
    }

    /// Takes the actions out twice, in order.
    pub fn take_both(&mut self, alloc: Global) -> (Actions, Actions)
        requires { IsTrue self.old.twice }
        ensures first { result.0 ≡ self.old.items }
        ensures second { result.1 ≡ self.old.items }
        ensures twice { self.new.twice ≡ self.old.twice }
    {
        let first = take(alloc, &mut self.first, &mut self.fitting);
        let second = take(alloc, &mut self.second, &mut self.fitting_copy);
        (first, second)
    }
}

// Has a list in which so many actions have places, and no more.
fn fit(alloc: Global, list: &mut Vec<Action>, places: usize) -> Result<(), AllocError>
    requires { list.old.items ≡ [] }
    ensures { list.new.items ≡ [] }
{
    if list.capacity() != places {
        *list = Vec::with_capacity(alloc, places)?;
    }
    Ok(())
}

// Takes the actions out of a list: in one that fits them where it has places for them, and else as they are. It takes no memory.
fn take(alloc: Global, list: &mut Vec<Action>, fitting: &mut Vec<Action>) -> Actions
    requires { fitting.old.items ≡ [] }
    ensures actions { result ≡ list.old.items }
    ensures list { list.new.items ≡ [] }
    ensures fitting { fitting.new.items ≡ [] }
{
    if list.is_empty() {
        return Actions::from_vec(Vec::new(alloc));
    }
    if fitting.capacity() < list.len() {
        return Actions::from_vec(mem::replace(list, Vec::new(alloc)));
    }
    match fitting.append(list) {
        Ok(()) => {}
        Err(_) => unreachable!(),
    }
    Actions::from_vec(mem::replace(fitting, Vec::new(alloc)))
}
