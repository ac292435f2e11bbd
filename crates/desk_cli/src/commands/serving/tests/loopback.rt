//! Connections to a port of 127.0.0.1.
use crate::network::Network;
use crate::sockets::Sockets;
use crate::tests::holding::holds;
use crate::tests::opening;
use crate::tests::requests::posted;
use crate::tests::requests::responses::{ADDED, TOO_LONG};
use crate::tests::rows::REQUEST;
use desk_http::{Listening, serve_connections};
use desk_store::Lists;
use std::io::{self, Read, Write};
use std::net::{Shutdown, SocketAddr, TcpStream};
use std::test::Fail;
use std::time::{Duration, Instant};

/// A client that has sent these pieces, and sends nothing more.
fn client(rt: &HostRuntime, address: SocketAddr, pieces: &[&[u8]]) -> io::Result<TcpStream> {
    let mut client = TcpStream::connect(rt, address)?;
    client.set_nodelay(true)?;
    client.set_read_timeout(Some(Duration::from_secs(5)))?;
    client.set_write_timeout(Some(Duration::from_secs(5)))?;
    for piece in pieces {
        client.write_all(piece)?;
    }
    client.shutdown(Shutdown::Write)?;
    Ok(client)
}

/// What a client gets that sends these pieces. It is served once all of them are sent.
fn answered(rt: &HostRuntime, pieces: &[&[u8]]) -> Result<Vec<u8>, Fail> {
    let mut port = Sockets::new(rt, rt.stderr()).listen(0, false)?;
    let mut client = client(rt, port.port().address()?, pieces)?;
    let mut lists = opening::<Lists>(rt.alloc(), 65_536)?;
    if serve_connections(rt.alloc(), &mut *lists, &mut port, 1).is_err() {
        return Err("no connection comes".into());
    }
    let mut response = Vec::new(rt.alloc());
    client.read_to_end(&mut response)?;
    Ok(response)
}

#[test]
fn a_head_in_pieces(rt: HostRuntime) -> Result<(), Fail> {
    let input = posted(rt.alloc(), REQUEST, "")?;
    let input = input.as_bytes();
    // It bounds the pieces.
    assert!(rt; input.len() > 40);
    let pieces = [&input[..1], &input[1..30], &input[30..31], &input[31..]];
    let response = answered(&rt, &pieces)?;
    holds(&rt, response.as_slice() == ADDED.as_bytes(), ADDED);
    Ok(())
}

/// A client that says nothing is let go after a second, and the next is served.
#[test]
fn a_silent_client(rt: HostRuntime) -> Result<(), Fail> {
    let input = posted(rt.alloc(), REQUEST, "")?;
    let mut port = Sockets::new(&rt, rt.stderr()).listen(0, false)?;
    let silent = TcpStream::connect(&rt, port.port().address()?)?;
    let mut client = client(&rt, port.port().address()?, &[input.as_bytes()])?;
    let mut lists = opening::<Lists>(rt.alloc(), 65_536)?;
    let began = Instant::now(&rt)?;
    let served = serve_connections(rt.alloc(), &mut *lists, &mut port, 2);
    let took = began.elapsed(&rt)?;
    holds(&rt, served.is_ok(), "both are served");
    let in_time = took >= Duration::from_secs(1) && took < Duration::from_secs(4);
    holds(&rt, in_time, "how long it takes");
    let mut response = Vec::new(rt.alloc());
    client.read_to_end(&mut response)?;
    holds(&rt, response.as_slice() == ADDED.as_bytes(), ADDED);
    drop(silent);
    Ok(())
}

/// What is left unread of it doesn't cut the response off.
#[test]
fn a_body_that_is_too_long(rt: HostRuntime) -> Result<(), Fail> {
    let head = b"POST /v1/messages HTTP/1.1\r\nContent-Length: 65537\r\n\r\n";
    let mut input = head.to_vec(rt.alloc())?;
    input.resize(head.len() + 65_537, b'x')?;
    let response = answered(&rt, &[input.as_slice()])?;
    holds(&rt, response.as_slice() == TOO_LONG.as_bytes(), TOO_LONG);
    Ok(())
}
