// Links, doors and the porch over sockets, each with a client on the loopback address. What a client sends and reads are bytes of
// RFC 6455: the handshake is that of section 1.3, frames are laid out as in section 5.2, and those of `Hello` stand in section 5.7.
ghost use Rattle.std.specs.Prelude.{◌≡◌, false, IfSome};

use crate::calls::{ends, fails, gives, gives_other, refuses, visitor};
use link_io::{Door, Link, Porch, Sent, TcpPorch, WsLink};
use std::alloc::{AllocError, Global};
use std::io;
use std::io::{Read, Write};
use std::net::{Ipv4Addr, Net, TcpListener, TcpStream};
use std::test::Fail;
use std::time::Duration;

const REQUEST: &[u8] = b"GET /chat HTTP/1.1\r
Host: server.example.com\r
Upgrade: websocket\r
Connection: Upgrade\r
Sec-WebSocket-Key: dGhlIHNhbXBsZSBub25jZQ==\r
Origin: http://example.com\r
Sec-WebSocket-Version: 13\r
\r
";

const ACCEPT: &str = "s3pPLMBiTxaQ9kYGzzhZRbK+xOo=";

// A text and a ping of `Hello`, with the masking key of section 5.7, and the pong that answers the ping.
const HELLO: &[u8] = b"\x81\x85\x37\xfa\x21\x3d\x7f\x9f\x4d\x51\x58";

const PING: &[u8] = b"\x89\x85\x37\xfa\x21\x3d\x7f\x9f\x4d\x51\x58";

const PONG: &[u8] = b"\x8a\x05Hello";

// A client who calls at this port, and sends these bytes first. No call of it waits longer than ten seconds.
fn call<N: Net<Listener = TcpListener, Stream = TcpStream>>(
    net: &N,
    port: u16,
    bytes: &[u8],
) -> io::Result<TcpStream> {
    let mut client = TcpStream::connect(net, (Ipv4Addr::LOCALHOST, port))?;
    client.set_read_timeout(Some(Duration::from_secs(10)))?;
    client.set_write_timeout(Some(Duration::from_secs(10)))?;
    client.write_all(bytes)?;
    Ok(client)
}

// A port that nobody listens at.
fn free_port<N: Net<Listener = TcpListener, Stream = TcpStream>>(net: &N) -> io::Result<u16> {
    let listener = TcpListener::bind(net, (Ipv4Addr::LOCALHOST, 0))?;
    Ok(listener.local_addr()?.port())
}

// The only door of a port, if the porch gives it.
fn one_door<P: Porch>(porch: &mut P, port: u16) -> Option<P::Way>
    ensures { IfSome result (λ door. P.Way.out door ≡ false) }
{
    porch.doors(port, 1).ok()?.pop()
}

// Whether the client next reads exactly these bytes.
fn reads<S: Read>(client: &mut S, want: &[u8]) -> bool {
    let mut buffer = [0; 64];
    let Some(place) = buffer.get_mut(..want.len()) else {
        return false;
    };
    client.read_exact(place).is_ok() && &*place == want
}

// Whether the client next reads the head that answers the request, and nothing behind it.
fn is_answered<S: Read>(client: &mut S) -> bool {
    let mut head = [0; 512];
    let Ok(count) = client.read(&mut head) else {
        return false;
    };
    match std::str::from_utf8(&head[..count]) {
        Ok(text) => {
            text.starts_with("HTTP/1.1 101 ") && text.contains(ACCEPT) && text.ends_with("\r\n\r\n")
        }
        Err(_) => false,
    }
}

// A text frame of a client with its length in eight bytes and the masking key 0.
fn long_frame(alloc: Global, text: &[u8]) -> Result<Vec<u8>, AllocError> {
    let mut frame = Vec::from_slice(alloc, b"\x81\xff")?;
    frame.extend_from_slice(&(text.len() as u64).to_be_bytes())?;
    frame.extend_from_slice(&[0; 4])?;
    frame.extend_from_slice(text)?;
    Ok(frame)
}

// A visitor whose handshake is done, and the client at the other end.
fn meet(rt: HostRuntime) -> Option<(WsLink, TcpStream)> {
    let port = free_port(&rt).ok()?;
    let mut door = one_door(&mut TcpPorch::new(rt.alloc(), rt), port)?;
    let mut client = call(&rt, port, REQUEST).ok()?;
    let link = visitor(&mut door)?;
    if is_answered(&mut client) {
        Some((link, client))
    } else {
        None
    }
}

#[test]
fn gives_texts(rt: HostRuntime) -> Result<(), Fail> {
    let (mut link, mut client) = meet(rt).ok_or("nobody comes")?;
    let short: [(&[u8], &[u8]); 5] = [
        (HELLO, b"Hello"),
        (b"\x81\x80\0\0\0\0", b""),
        (b"\x01\x82\0\0\0\0He\x80\x83\0\0\0\0llo", b"Hello"),
        (b"\x8a\x80\0\0\0\0\x81\x81\0\0\0\0a", b"a"),
        (b"\x89\x80\0\0\0\0\x81\x81\0\0\0\0b", b"b"),
    ];
    for (frames, text) in short {
        client.write_all(frames)?;
        assert!(rt; gives(&mut link, text));
    }
    for length in [65_536, 65_537] {
        let mut text = Vec::new(rt.alloc());
        text.resize(length, b'x')?;
        client.write_all(&long_frame(rt.alloc(), &text)?)?;
        assert!(rt; gives(&mut link, &text), "a text of {length} bytes");
    }
    Ok(())
}

#[test]
fn answers_pings_and_sends_texts(rt: HostRuntime) -> Result<(), Fail> {
    let (mut link, mut client) = meet(rt).ok_or("nobody comes")?;
    client.write_all(b"\x82\x82\0\0\0\0\x01\x02")?;
    assert!(rt; gives_other(&mut link));
    client.write_all(PING)?;
    client.write_all(HELLO)?;
    assert!(rt; gives(&mut link, b"Hello"));
    assert!(rt; reads(&mut client, PONG));
    assert_eq!(rt;
        (link.send(b"Hello"), link.send(b"\xff")),
        (Sent::Done, Sent::Failed)
    );
    assert_eq!(rt; link.faults(), 1);
    client.write_all(HELLO)?;
    assert!(rt; gives(&mut link, b"Hello"));
    assert!(rt; reads(&mut client, b"\x81\x05Hello"));
    Ok(())
}

#[test]
fn lets_texts_wait(rt: HostRuntime) -> Result<(), Fail> {
    let (mut link, mut client) = meet(rt).ok_or("nobody comes")?;
    client.set_read_timeout(Some(Duration::from_millis(50)))?;
    assert_eq!(rt; link.send(b"Hello"), Sent::Done);
    assert_eq!(rt; link.send(b"you"), Sent::Done);
    assert!(rt; client.read(&mut [0; 1]).is_err());

    // What waits goes out before a message is waited for, and before a close frame.
    client.write_all(HELLO)?;
    assert!(rt; gives(&mut link, b"Hello"));
    assert!(rt; reads(&mut client, b"\x81\x05Hello\x81\x03you"));
    assert_eq!(rt; link.send(b"bye"), Sent::Done);
    link.close();
    assert!(rt; reads(&mut client, b"\x81\x03bye\x88\x00"));
    Ok(())
}

#[test]
fn closes(rt: HostRuntime) -> Result<(), Fail> {
    let (mut link, mut client) = meet(rt).ok_or("nobody comes")?;
    client.write_all(b"\x88\x82\0\0\0\0\x03\xe8")?;
    assert!(rt; ends(&mut link));
    assert!(rt; reads(&mut client, b"\x88\x02\x03\xe8"));
    link.close();
    assert_eq!(rt; client.read(&mut [0; 1])?, 0);

    let (link, mut client) = meet(rt).ok_or("nobody comes")?;
    link.close();
    assert!(rt; reads(&mut client, b"\x88\x00"));
    assert_eq!(rt; client.read(&mut [0; 1])?, 0);
    Ok(())
}

#[test]
fn counts_failures_of_links(rt: HostRuntime) -> Result<(), Fail> {
    // a connection that goes away without a close frame
    let (mut link, client) = meet(rt).ok_or("nobody comes")?;
    drop(client);
    assert!(rt; fails(&mut link));
    assert_eq!(rt; link.faults(), 1);

    // a message of 1,048,577 bytes
    let (mut link, mut client) = meet(rt).ok_or("nobody comes")?;
    client.write_all(b"\x81\xff\0\0\0\0\0\x10\0\x01\0\0\0\0")?;
    assert!(rt; fails(&mut link));
    assert_eq!(rt; link.faults(), 1);
    link.close();
    assert!(rt; reads(&mut client, b"\x88\x00"));
    Ok(())
}

#[test]
fn counts_failures_of_doors(rt: HostRuntime) -> Result<(), Fail> {
    let port = free_port(&rt)?;
    let mut porch = TcpPorch::new(rt.alloc(), rt);
    let mut door = one_door(&mut porch, port).ok_or("no door")?;
    assert!(rt; one_door(&mut porch, port).is_none());
    assert_eq!(rt; porch.faults(), 1);

    let mut page = call(&rt, port, b"GET / HTTP/1.1\r\nHost: x\r\n\r\n")?;
    if !refuses(&mut door) {
        return Err("who asks for a page is a visitor".into());
    }
    assert_eq!(rt; door.faults(), 1);
    assert_eq!(rt; page.read(&mut [0; 1])?, 0);

    // who is parted from is sent a close frame
    let mut client = call(&rt, port, REQUEST)?;
    let link = visitor(&mut door).ok_or("nobody comes")?;
    assert!(rt; is_answered(&mut client));
    door.part(link);
    assert!(rt; reads(&mut client, b"\x88\x00"));
    porch.back(Vec::from_array(rt.alloc(), [door])?);
    assert_eq!(rt; porch.faults(), 2);
    Ok(())
}
