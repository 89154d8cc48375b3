// Links over WebSockets.
ghost use Rattle.std.specs.Prelude.{◌≡◌, None};

use crate::answers::{Received, Sent};
use crate::link::Link;
use std::alloc::Global;
use std::net::TcpStream;
use tungstenite::{Error, Message, NoMask, WebSocket};

// At so many pings and pongs in a row the link fails.
const PINGS: u32 = 65_536;

/// The link of a visitor over a WebSocket (RFC 6455). A text message is a text, however many frames it comes in, and a binary one is none.
/// A visitor who closes, by a close frame or behind one, is at the end; a connection that goes away without a close frame is a failure.
#[derive(Drop)]
pub struct WsLink {
    alloc: Global,
    socket: WebSocket<TcpStream, NoMask>,
    faults: u64,
}

impl WsLink {
    /// The link over a socket whose handshake is done (RFC 6455, section 4.2). No call has failed.
    pub fn new(alloc: Global, socket: WebSocket<TcpStream, NoMask>) -> Self
        ensures { result.faults ≡ 0 }
    {
        WsLink {
            alloc,
            socket,
            faults: 0,
        }
    }

    /// How often a call failed. It stands still at 2^64 - 1.
    pub fn faults(&self) -> u64
        ensures { result ≡ self.now.faults }
    {
        self.faults
    }

    /// Closes the link with a close frame (RFC 6455, section 5.5.1), where the visitor still takes one, behind the texts that wait. It waits
    /// for no answer; where the frame can't be sent, the connection ends without it.
    pub fn close(mut self) {
        if let Err(Error::OutOfMemory) = self.socket.close(None) {
            let _ = self.socket.flush();
        }
    }

    // What one read gives; none at a ping or a pong. What waits to be sent goes out first. A failure isn't counted yet.
    fn read_one(&mut self) -> Option<Received>
        ensures { self.new.faults ≡ self.old.faults }
    {
        if let Err(error) = self.socket.flush() {
            return Some(stopped_by(&error));
        }
        match self.socket.read() {
            Ok(Message::Text(text)) => match Vec::from_slice(self.alloc, text.as_str().as_bytes()) {
                Ok(bytes) => Some(Received::Text(bytes)),
                Err(_) => Some(Received::Memory),
            },
            Ok(Message::Binary(_)) => Some(Received::Other),
            Ok(Message::Ping(_) | Message::Pong(_)) => None,
            Ok(Message::Close(_)) => {
                // The answer to it waits to be sent, and nobody reads on. Whether it can be sent is no matter.
                let _ = self.socket.flush();
                Some(Received::End)
            }
            Err(error) => Some(stopped_by(&error)),
        }
    }
}

// What an error of a socket gives in place of a message.
fn stopped_by(error: &Error) -> Received {
    match error {
        Error::ConnectionClosed => Received::End,
        Error::OutOfMemory => Received::Memory,
        _ => Received::Failed,
    }
}

impl Link for WsLink {
    ghost told = { λ link. None };

    ghost faults = { λ link. link.faults };

    fn recv(&mut self) -> Received {
        for _ in 0..PINGS {
            match self.read_one() {
                None => {}
                Some(Received::Failed) => break,
                Some(received) => return received,
            }
        }
        self.faults = self.faults.saturating_add(1);
        Received::Failed
    }

    fn send(&mut self, text: &[u8]) -> Sent {
        let Ok(words) = std::str::from_utf8(text) else {
            self.faults = self.faults.saturating_add(1);
            return Sent::Failed;
        };
        let Ok(message) = Message::text(self.alloc, words) else {
            return Sent::Memory;
        };
        match self.socket.write(message) {
            Ok(()) => Sent::Done,
            Err(Error::OutOfMemory) => Sent::Memory,
            Err(_) => {
                self.faults = self.faults.saturating_add(1);
                Sent::Failed
            }
        }
    }
}
