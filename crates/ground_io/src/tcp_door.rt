//! A listening socket as a door.
ghost use Rattle.std.specs.Prelude.{◌≡◌, ◌↔◌, ◌+◌, ◌<◌, ◌^◌, None, IfOk, OnOk, IsNone, IsOk, IsTrue, false};
ghost use Rattle.ground_io.specs.Causes.{HasCause};
ghost use Rattle.ground_io.specs.Wires.{OnWire, OnNoWire};

use crate::door::Door;
use crate::fault::{Failed, FaultCount};
use crate::stream_link::TcpLink;
use std::io;
use std::marker::Model;
use std::net::{Net, OpenListener, SocketAddr, TcpListener, TcpStream};

/// A TCP listener for a stated number of sessions. It binds at its first `accept`, or where that
/// failed at a later one, and listens until it is dropped. A wire that is handed back is closed.
#[derive(Drop)]
pub struct TcpDoor<R: Net<Stream = TcpStream, Listener = TcpListener> + Drop> {
    net: R,
    address: SocketAddr,
    listener: Option<TcpListener>,
    sessions: u32,
    out: u32,
    faults: FaultCount,
}

impl<R: Net<Stream = TcpStream, Listener = TcpListener> + Drop> Model for TcpDoor<R> {
    ghost use Rattle.std.specs.Prelude.{◌+◌, ◌<◌, ◌^◌, is_some};
    ghost use Rattle.ground_io.specs.Sockets.{ListenerView};

    ghost Value = { ListenerView };

    ghost view = { λ d. record { address = d.address; is_bound = is_some d.listener; sessions = d.sessions; out = d.out; faults = d.faults } };

    ghost invariant = { λ d. d.out + d.sessions < 2 ^ 32 };
}

impl<R: Net<Stream = TcpStream, Listener = TcpListener> + Drop> TcpDoor<R> {
    pub fn new(net: R, address: SocketAddr, sessions: u32) -> Self
        ensures { result ≡ record { address = address; is_bound = false; sessions = sessions; out = 0; faults = 0 } }
    {
        TcpDoor {
            net,
            address,
            listener: None,
            sessions,
            out: 0,
            faults: FaultCount::new(),
        }
    }

    // The next connection. The listener stays after a fault.
    fn connection(&mut self) -> io::Result<TcpStream>
        ensures same { self.new ≡ record self.old { is_bound = self.new.is_bound } }
        ensures bound { OnOk result (IsTrue self.new.is_bound) }
        ensures stays_bound { IsTrue self.old.is_bound → IsTrue self.new.is_bound }
    {
        let listener = match self.listener.take() {
            Some(listener) => listener,
            None => self.net.bind(self.address)?,
        };
        let accepted = listener.accept();
        self.listener = Some(listener);
        let stream = accepted?.0;
        // Without it a small reply may wait for the other side. Where it can't be had, it waits.
        let _ = stream.set_nodelay(true);
        Ok(stream)
    }
}

impl<R: Net<Stream = TcpStream, Listener = TcpListener> + Drop> Door for TcpDoor<R> {
    type Wire = TcpLink;

    ghost out = { λ d. d.out };

    ghost sessions = { λ d. d.sessions };

    ghost coming = { λ _. None };

    ghost back = { λ _. None };

    ghost accept_faults = { λ d. d.faults };

    ghost counted = { λ _. tt };

    fn accept(&mut self) -> Result<Option<TcpLink>, Failed>
        ensures end { IfOk result (λ o. IsNone o ↔ (self.old.sessions ≡ 0)) }
        ensures closed { self.old.sessions ≡ 0 → IsOk result }
        ensures cause { HasCause self.old.faults self.new.faults result }
        ensures fresh { OnWire result (λ w. (w.read_faults ≡ 0) × (w.write_faults ≡ 0)) }
        ensures goes_out { OnWire result (λ _. self.new.out ≡ self.old.out + 1) }
        ensures counts_down { OnWire result (λ _. self.old.sessions ≡ self.new.sessions + 1) }
        ensures same_out { OnNoWire result (self.new.out ≡ self.old.out) }
        ensures same_sessions { OnNoWire result (self.new.sessions ≡ self.old.sessions) }
        ensures same_address { self.new.address ≡ self.old.address }

        // A listener stays bound, and at the end none is bound anew.
        ensures bound { OnWire result (λ _. IsTrue self.new.is_bound) }
        ensures stays_bound { IsTrue self.old.is_bound → IsTrue self.new.is_bound }
        ensures binds_none { self.old.sessions ≡ 0 → self.new.is_bound ≡ self.old.is_bound }
    {
        if self.sessions == 0 {
            return Ok(None);
        }
        match self.connection() {
            Ok(stream) => {
                self.sessions -= 1;
                self.out += 1;
                Ok(Some(TcpLink::new(stream)))
            }
            Err(_) => Err(self.faults.rise()),
        }
    }

    fn hand_back(&mut self, wire: TcpLink)
        requires { 0 < self.old.out }
        ensures comes_in { self.old.out ≡ self.new.out + 1 }
        ensures same { self.new ≡ record self.old { out = self.new.out } }
    {
        self.out -= 1;
        drop(wire);
    }
}
