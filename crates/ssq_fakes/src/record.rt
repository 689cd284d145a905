//! The record of a disk in memory.

ghost use Rattle.std.specs.Prelude.{◌≡◌, ◌+◌, [], ◌∷◌, length, drop, min, option_map, is_some, IfOk, MatchOption};

use crate::names::{add, listed};
use ssq_outside::Name;
use std::alloc::{AllocError, Global};
use std::collections::BTreeSet;
use std::mem;

/// What changed on a disk.
#[derive(Drop)]
pub enum Event {
    /// The name got these bytes.
    Put(Name, Vec<u8>),
    /// The name's file was removed.
    Gone(Name),
    /// What each name had then was settled.
    Synced,
}

impl Event {
    ghost use Rattle.ssq_fakes.specs.Records.{is_about, name_of, content_of, is_sync};

    /// Whether it gave this name bytes, or removed its file.
    pub fn is_about(&self, name: Name) -> bool
        ensures { result ≡ is_about self.now name }
    {
        match self {
            Event::Put(of, _) => name.is(*of),
            Event::Gone(of) => name.is(*of),
            Event::Synced => false,
        }
    }

    /// The name that it changes.
    pub fn name(&self) -> Option<Name>
        ensures { result ≡ name_of self.now }
    {
        match self {
            Event::Put(name, _) => Some(*name),
            Event::Gone(name) => Some(*name),
            Event::Synced => None,
        }
    }

    /// The bytes that it gave a name.
    pub fn content(&self) -> Option<&[u8]>
        ensures { option_map (λ bytes. bytes.now) result ≡ content_of self.now }
    {
        match self {
            Event::Put(_, bytes) => Some(bytes.as_slice()),
            _ => None,
        }
    }

    /// Whether it settled the names.
    pub fn is_sync(&self) -> bool
        ensures { result ≡ is_sync self.now }
    {
        match self {
            Event::Synced => true,
            _ => false,
        }
    }
}

/// The names that events change which are met from the newest.
#[derive(Drop)]
struct Found {
    /// The names that were met.
    met: BTreeSet<Name>,
    /// Of these the ones that have a file.
    present: BTreeSet<Name>,
}

impl Found {
    ghost use Rattle.std.specs.Prelude.{◌&&◌, ◌||◌, not, OnOk};
    ghost use Rattle.ssq_fakes.specs.Records.{is_about, content_of};
    ghost use Rattle.ssq_fakes.specs.Disks.{has_name};

    fn nothing(alloc: Global) -> Self
        ensures met { result.met.keys ≡ [] }
        ensures present { result.present.keys ≡ [] }
    {
        Found {
            met: BTreeSet::new(alloc),
            present: BTreeSet::new(alloc),
        }
    }

    /// Takes in the next older event. It counts where its name was not met yet.
    fn take(&mut self, event: &Event) -> Result<(), AllocError>
        ensures met { OnOk result ((q : Name) → has_name self.new.met.keys q ≡ (is_about event.now q || has_name self.old.met.keys q)) }
        ensures present { OnOk result ((q : Name) → has_name self.new.present.keys q ≡ (has_name self.old.present.keys q || (is_about event.now q && not (has_name self.old.met.keys q) && is_some (content_of event.now)))) }
    {
        match event {
            Event::Put(name, _) => {
                if add(&mut self.met, *name)? {
                    add(&mut self.present, *name)?;
                }
            },
            Event::Gone(name) => {
                add(&mut self.met, *name)?;
            },
            Event::Synced => {},
        }
        Ok(())
    }
}

/// Events, the newest first. The room of an event is the box that holds those before it, so that one can be added
/// without taking memory.
pub enum Record {
    Empty,
    Then(Event, Box<Record>),
}

impl Drop for Record {
    fn drop(mut self) {
        loop {
            match self {
                Record::Empty => return,
                Record::Then(_, older) => self = Box::into_inner(older),
            }
        }
    }
}

impl Record {
    ghost use Rattle.ssq_outside.specs.declared.name.Name.{Name};
    ghost use Rattle.ssq_fakes.specs.Records.{events_of, had_after, content_in, is_unsettled, is_mentioned, is_changed_in};
    ghost use Rattle.ssq_fakes.specs.Crashes.{content_at};
    ghost use Rattle.ssq_fakes.specs.Disks.{has_name};
    ghost use Rattle.ssq_fakes.specs.Names.{Lists};

    /// Adds an event in this room.
    pub fn push(&mut self, event: Event, mut room: Box<Record>)
        ensures { events_of self.new ≡ event ∷ events_of self.old }
    {
        *room = mem::replace(self, Record::Empty);
        *self = Record::Then(event, room);
    }

    /// Takes the newest event's room, without the event.
    pub fn take_room(&mut self) -> Option<Box<Record>>
        ensures { MatchOption result (events_of self.old ≡ []) (λ _. length (events_of self.old) ≡ length (events_of self.new) + 1) }
    {
        let (_, mut room) = mem::replace(self, Record::Empty).into_newest()?;
        mem::swap(self, &mut *room);
        Some(room)
    }

    /// The newest event, and those before it.
    fn into_newest(self) -> Option<(Event, Box<Record>)>
        ensures { MatchOption result (events_of self ≡ []) (λ parts. events_of self ≡ parts.0 ∷ events_of parts.1.value) }
    {
        match self {
            Record::Empty => None,
            Record::Then(event, older) => Some((event, older)),
        }
    }

    /// The record as it was so many events ago, or at its start.
    pub fn before(&self, mut events: u64) -> &Record
        ensures { events_of result.now ≡ drop events (events_of self.now) }
    {
        let mut at = self;
        while events > 0 {
            match at {
                Record::Empty => return at,
                Record::Then(_, older) => at = older,
            }
            events -= 1;
        }
        at
    }

    /// What stands at the name.
    pub fn content(&self, name: Name) -> Option<&[u8]>
        ensures { option_map (λ bytes. bytes.now) result ≡ content_in (events_of self.now) name }
    {
        let mut at = self;
        while let Record::Then(event, older) = at {
            if event.is_about(name) {
                return event.content();
            }
            at = older;
        }
        None
    }

    /// Whether a file stands at the name.
    pub fn has(&self, name: Name) -> bool
        ensures { result ≡ is_some (content_in (events_of self.now) name) }
    {
        self.content(name).is_some()
    }

    /// Whether something changed since the last sync.
    pub fn is_unsettled(&self) -> bool
        ensures { result ≡ is_unsettled (events_of self.now) }
    {
        match self {
            Record::Empty => false,
            Record::Then(Event::Synced, _) => false,
            Record::Then(_, _) => true,
        }
    }

    /// The names that its events change. Each event is met once, the newest first.
    fn found(&self, alloc: Global) -> Result<Found, AllocError>
        ensures met { IfOk result (λ found. (q : Name) → has_name found.met.keys q ≡ is_mentioned (events_of self.now) q) }
        ensures present { IfOk result (λ found. (q : Name) → has_name found.present.keys q ≡ is_some (content_in (events_of self.now) q)) }
    {
        let mut found = Found::nothing(alloc);
        let mut at = self;
        while let Record::Then(event, older) = at {
            found.take(event)?;
            at = older;
        }
        Ok(found)
    }

    /// The names that ever changed, each once, in their order.
    pub fn names(&self, alloc: Global) -> Result<Vec<Name>, AllocError>
        ensures { IfOk result (λ names. Lists (is_mentioned (events_of self.now)) names.items) }
    {
        let found = self.found(alloc)?;
        listed(alloc, found.met)
    }

    /// The names that have a file, each once, in their order.
    pub fn present(&self, alloc: Global) -> Result<Vec<Name>, AllocError>
        ensures { IfOk result (λ names. Lists (λ q. is_some (content_in (events_of self.now) q)) names.items) }
    {
        let found = self.found(alloc)?;
        listed(alloc, found.present)
    }

    /// The names that changed since the last sync, each once, in their order.
    pub fn changed(&self, alloc: Global) -> Result<Vec<Name>, AllocError>
        ensures { IfOk result (λ names. Lists (is_changed_in (events_of self.now)) names.items) }
    {
        let mut changed = BTreeSet::new(alloc);
        let mut at = self;
        while let Record::Then(event, older) = at {
            match event.name() {
                Some(name) => add(&mut changed, name)?,
                None => break,
            };
            at = older;
        }
        listed(alloc, changed)
    }

    /// What stands at the name after only so many of its changes since the last sync, the oldest first, and how many
    /// there were of these.
    pub fn after_changes(&self, name: Name, number: u64) -> (Option<&[u8]>, u64)
        ensures content { option_map (λ bytes. bytes.now) result.0 ≡ content_at (had_after (events_of self.now) name) number }
        ensures count { result.1 ≡ min number (length (had_after (events_of self.now) name).since) }
    {
        match self {
            Record::Empty => (None, 0),
            Record::Then(event, older) => {
                if event.is_sync() {
                    return (older.content(name), 0);
                }
                let (content, changes) = older.after_changes(name, number);
                if event.is_about(name) && changes < number {
                    (event.content(), changes + 1)
                } else {
                    (content, changes)
                }
            }
        }
    }
}
