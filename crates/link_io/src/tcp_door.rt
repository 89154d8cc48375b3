// Doors over listening sockets.
ghost use Rattle.std.specs.Prelude.{◌≡◌, None, false, IfOk};

use crate::answers::Accepted;
use crate::door::Door;
use crate::ws_link::WsLink;
use std::alloc::Global;
use std::io;
use std::net::{TcpListener, TcpStream};
use std::time::Duration;
use tungstenite::handshake::HandshakeError;
use tungstenite::handshake::server::start;
use tungstenite::{Error, NoCallback, WebSocketConfig};

// How long each read of a handshake may take, and each write.
const HANDSHAKE_SECONDS: u64 = 5;

const WRITE_SECONDS: u64 = 30;

// The most bytes of a message and of a frame. It is more than any message has, so that one which is a little too long is still read and
// can be answered.
const WIRE_BYTES: usize = 1 << 20;

// How many bytes one read of a connection asks for.
const READ_BYTES: usize = 4096;

// Where so many bytes of texts wait, they are sent.
const WAITING_BYTES: usize = 4096;

/// A door over a listening socket: each visitor is a connection whose handshake succeeds (RFC 6455, section 4.2). One who doesn't
/// succeed is a failure of the door. It never tells that nobody comes any more.
#[derive(Drop)]
pub struct TcpDoor {
    alloc: Global,
    listener: TcpListener,
    has_visitor: bool,
    faults: u64,
}

// Why no visitor came.
enum Missed {
    Failed,
    Memory,
}

impl TcpDoor {
    /// A door over this socket. No call has failed, and nobody is out.
    pub fn new(alloc: Global, listener: TcpListener) -> Self
        ensures { (result.faults ≡ 0) × (result.has_visitor ≡ false) }
    {
        TcpDoor {
            alloc,
            listener,
            has_visitor: false,
            faults: 0,
        }
    }

    /// How often a call failed. It stands still at 2^64 - 1.
    pub fn faults(&self) -> u64
        ensures { result ≡ self.now.faults }
    {
        self.faults
    }

    // The link of the next connection, once its handshake is done. Then a read may take as long as it wants.
    fn next(&self) -> Result<WsLink, Missed>
        ensures { IfOk result (λ link. link.faults ≡ 0) }
    {
        let Ok((stream, _)) = self.listener.accept() else {
            return Err(Missed::Failed);
        };
        if set_up(&stream).is_err() {
            return Err(Missed::Failed);
        }
        match start(self.alloc, stream, NoCallback, Some(limits())).handshake() {
            Ok(socket) => {
                if socket.get_ref().set_read_timeout(None).is_err() {
                    return Err(Missed::Failed);
                }
                Ok(WsLink::new(self.alloc, socket))
            }
            Err(HandshakeError::Failure(Error::OutOfMemory)) => Err(Missed::Memory),
            Err(_) => Err(Missed::Failed),
        }
    }
}

// What each connection is set to before its handshake. What is written is sent at once: a link gathers texts itself.
fn set_up(stream: &TcpStream) -> io::Result<()> {
    stream.set_nodelay(true)?;
    stream.set_read_timeout(Some(Duration::from_secs(HANDSHAKE_SECONDS)))?;
    stream.set_write_timeout(Some(Duration::from_secs(WRITE_SECONDS)))
}

fn limits() -> WebSocketConfig {
    WebSocketConfig::default()
        .max_message_size(Some(WIRE_BYTES))
        .max_frame_size(Some(WIRE_BYTES))
        .read_buffer_size(READ_BYTES)
        .write_buffer_size(WAITING_BYTES)
}

impl Door for TcpDoor {
    type Visitor = WsLink;

    ghost queue = { λ door. None };

    ghost out = { λ door. door.has_visitor };

    ghost faults = { λ door. door.faults };

    fn accept(&mut self) -> Accepted<WsLink> {
        match self.next() {
            Ok(link) => {
                self.has_visitor = true;
                Accepted::Visitor(link)
            }
            Err(Missed::Memory) => Accepted::Memory,
            Err(Missed::Failed) => {
                self.faults = self.faults.saturating_add(1);
                Accepted::Failed
            }
        }
    }

    fn part(&mut self, link: WsLink) {
        self.has_visitor = false;
        link.close();
    }
}
