ghost use Rattle.std.specs.Prelude.{◌≡◌, ◌+◌, ◌%◌, ◌<◌, ◌≤◌};
ghost use Rattle.brpc_model.specs.DrawnSeatsAndScripts.{drawn, drawn_state, seat_of};
ghost use Rattle.script_draw.specs.DrawnSeats.{seat_count};

use crate::draws::Draws;
use std::marker::Model;

/// The number of the first reader's seat, behind those of the clients.
const FIRST_READER: u32 = 32;

/// The seats that `sim` ticks, drawn from a seed one after another: of the clients in order, and then
/// the readers in order of their links, that one which a number drawn picks. Contracts see how many
/// of both there are, and the state of the draws.
#[derive(Drop)]
pub struct DrawnSeats {
    draws: Draws,
    clients: u16,
    links: u16,
}

impl Model for DrawnSeats {
    ghost use Rattle.std.specs.Prelude.{◌≤◌};
    ghost use Rattle.script_draw.specs.DrawnSeats.{SeatDraws};

    ghost Value = { SeatDraws };

    ghost view = { λ s. record { clients = s.clients; links = s.links; state = s.draws.state } };

    ghost invariant = { λ s. s.links ≤ 31 };
}

impl DrawnSeats {
    /// The seats of so many clients and of the readers of so many links.
    pub fn new(clients: u16, links: u16, seed: u64) -> Self
        requires { links ≤ 31 }
        ensures { result ≡ record { clients = clients; links = links; state = seed } }
    {
        DrawnSeats {
            draws: Draws::new(seed),
            clients,
            links,
        }
    }

    /// How many are drawn for a script of so many operations: none where there is neither a client
    /// nor a link.
    pub fn count(&self, operations: u16) -> u32
        ensures { result ≡ seat_count (self.now.clients + self.now.links) operations }
    {
        if u32::from(self.clients) + u32::from(self.links) == 0 {
            0
        } else {
            64 * u32::from(operations) + 256
        }
    }

    /// The next seat.
    pub fn next_seat(&mut self) -> u16
        requires { 0 < self.old.clients + self.old.links }
        ensures seat { result ≡ seat_of self.old.clients (drawn self.old.state % (self.old.clients + self.old.links)) }
        ensures after { self.new ≡ record { clients = self.old.clients; links = self.old.links; state = drawn_state self.old.state } }
    {
        let clients = u32::from(self.clients);
        let index = (self.draws.draw() % u64::from(clients + u32::from(self.links))) as u32;
        if index < clients {
            (index + 1) as u16
        } else {
            (FIRST_READER + (index - clients)) as u16
        }
    }
}
