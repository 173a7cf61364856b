//! Which connection `probe serve` takes for its own.

use crate::expect;
use mio::net::TcpListener;
use probe_modes::serve::accepted_from;
use std::alloc::Global;
use std::io::{self, ErrorKind};
use std::net::{self, Ipv4Addr, Net, OpenStream, SocketAddr};

/// What comes of our connection if so many others came before it: the error's kind, or none.
fn comes_after<N: Net>(rt: &N, alloc: Global, count: usize) -> io::Result<Option<ErrorKind>> {
    let any = SocketAddr::from((Ipv4Addr::LOCALHOST, 0));
    let listener = net::TcpListener::from(TcpListener::bind(rt, any)?);
    listener.set_nonblocking(false)?;
    let mut strangers = Vec::new(alloc);
    for _ in 0..count {
        strangers.push(net::TcpStream::connect(rt, listener.local_addr()?)?)?;
    }
    let near = net::TcpStream::connect(rt, listener.local_addr()?)?;
    let address = near.local_addr()?;
    match accepted_from(&listener, address) {
        Ok(far) if far.peer_addr()? == address => Ok(None),
        Ok(_) => Ok(Some(ErrorKind::InvalidData)),
        Err(error) => Ok(Some(error.kind())),
    }
}

#[test]
fn connections_of_others_are_let_go(rt: HostRuntime) -> io::Result<()> {
    expect(
        &rt,
        comes_after(&rt, rt.alloc(), 0)?.is_none(),
        "none before",
    );
    expect(
        &rt,
        comes_after(&rt, rt.alloc(), 3)?.is_none(),
        "three before",
    );
    let refused = Some(ErrorKind::ConnectionRefused);
    expect(
        &rt,
        comes_after(&rt, rt.alloc(), 64)? == refused,
        "too many before",
    );
    Ok(())
}
