//! The connections of one session, by number.
ghost use Rattle.std.specs.Prelude.{◌≡◌, ℕ, ◌≤◌, true, Some, None, option_map, MatchResult, OnOk, OnErr, is_some};
ghost use Rattle.connections.specs.Links.{connection, connection_at, ended_if, is_to, is_under, with_number};

use crate::links::Link;
use cell_world::locations::Location;
use cell_world::names::Name;
use cell_world::spans::Span;
use plain_model::replies::Refusal;
use std::marker::Model;

/// Most connections of one session. Their numbers are those from 1.
pub const MOST_CONNECTIONS: usize = 64;

/// The connections of one session: a place for each number. Takes no memory.
#[derive(Drop)]
pub struct Connections {
    places: [Option<Link>; MOST_CONNECTIONS],
}

impl Model for Connections {
    ghost use Rattle.std.specs.Prelude.{◌≡◌, List, Option, length};
    ghost use Rattle.connections.specs.declared.links.Link.{Link};

    ghost Value = { List (Option Link) };

    ghost view = { λ table. table.places };

    ghost invariant = { λ table. length table.places ≡ 64 };
}

/// What stands in a place once its connection was ended if it is to a key of the span in the map.
fn ended_under(place: &Option<Link>, map: &Name, span: &Span) -> Option<Link>
    ensures { option_map connection result ≡ ended_if (is_under map.now span.now) (option_map connection place.now) }
{
    match place {
        Some(link) if link.is_under(map, span) => Some(link.ended()),
        _ => *place,
    }
}

/// What stands in a place once its connection was ended if it is to the location.
fn ended_at(place: &Option<Link>, at: &Location) -> Option<Link>
    ensures { option_map connection result ≡ ended_if (is_to at.now) (option_map connection place.now) }
{
    match place {
        Some(link) if link.is_to(at) => Some(link.ended()),
        _ => *place,
    }
}

impl Connections {
    /// No connections.
    pub fn new() -> Connections
        ensures { (number : ℕ) → connection_at result number ≡ None }
    {
        Connections {
            places: [None; MOST_CONNECTIONS],
        }
    }

    /// The connection of this number, live or ended.
    pub fn at(&self, number: u32) -> Option<Link>
        ensures { option_map connection result ≡ connection_at self.now number }
    {
        if number == 0 {
            return None;
        }
        match self.places.get(number as usize - 1) {
            Some(place) => *place,
            None => None,
        }
    }

    /// This connection has this number from now on.
    pub fn put(&mut self, number: u32, link: &Link)
        requires least { 1 ≤ number }
        requires most { number ≤ 64 }
        ensures { (n : ℕ) → connection_at self.new n ≡ with_number (connection_at self.old) number (Some (connection link.now)) n }
    {
        self.places[number as usize - 1] = Some(*link);
    }

    /// The connection of this number is gone; `NoConnection` where there is none, live or ended.
    pub fn close_key(&mut self, number: u32) -> Result<(), Refusal>
        ensures answer { MatchResult result (λ _. is_some (connection_at self.old number) ≡ true) (λ refusal. (connection_at self.old number ≡ None) × (refusal ≡ Refusal.NoConnection)) }
        ensures gone { OnOk result ((n : ℕ) → connection_at self.new n ≡ with_number (connection_at self.old) number None n) }
        ensures stays { OnErr result (self.new ≡ self.old) }
    {
        if self.at(number).is_none() {
            return Err(Refusal::NoConnection);
        }
        self.places[number as usize - 1] = None;
        Ok(())
    }

    /// Each connection to a key of the span in the map is ended.
    pub fn end_span(&mut self, map: &Name, span: &Span)
        ensures { (number : ℕ) → connection_at self.new number ≡ ended_if (is_under map.now span.now) (connection_at self.old number) }
    {
        for place in self.places.iter_mut() {
            *place = ended_under(place, map, span);
        }
    }

    /// Each connection to the location is ended.
    pub fn end_site(&mut self, at: &Location)
        ensures { (number : ℕ) → connection_at self.new number ≡ ended_if (is_to at.now) (connection_at self.old number) }
    {
        for place in self.places.iter_mut() {
            *place = ended_at(place, at);
        }
    }
}
