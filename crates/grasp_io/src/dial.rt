//! Calls of the system on streams that no crate has: to connect from a stated address, and to keep a silent peer under watch.
//! This file alone is trusted.
ghost use Rattle.std.specs.Prelude.{◌≤◌, ◌↔◌, pos, ◌≤ℤ◌, IsOk};
ghost use Rattle.libc.specs.Net.{SockOption};

use libc::net as c;
use mio::net::TcpStream;
use os::FromRawFd;
use std::io;
use std::net::{self, Net, SocketAddr};
use std::os::fd::{AsRawFd, OwnedFd};

/// Begins to connect from this address to that one, and returns at once.
pub(crate) fn dial_from<N: Net>(
    _net: &N,
    from: SocketAddr,
    to: SocketAddr,
) -> io::Result<TcpStream> {
    let kind = c::SOCK_STREAM | c::SOCK_NONBLOCK | c::SOCK_CLOEXEC;
    let fd = match to {
        SocketAddr::V4(_) => unsafe { c::socket(c::AF_INET, kind, 0) },
        SocketAddr::V6(_) => unsafe { c::socket(c::AF_INET6, kind, 0) },
    };
    check(fd)?;
    let socket = unsafe { OwnedFd::from_raw_fd(fd) };
    let (raw, len) = encode(from);
    check(unsafe { c::bind(socket.as_raw_fd(), &raw, len) })?;
    let (raw, len) = encode(to);
    match check(unsafe { c::connect(socket.as_raw_fd(), &raw, len) }) {
        Err(error) if error.raw_os_error() != Some(libc::EINPROGRESS) => Err(error),
        _ => Ok(TcpStream::from_std(net::TcpStream::from(socket))),
    }
}

/// Has the system look whether the other side of a stream is still there, once it was silent for a minute: every ten seconds, and six
/// times before the stream ends.
pub(crate) fn keep_alive(socket: &TcpStream) -> io::Result<()> {
    let fd = socket.as_raw_fd();
    set(fd, c::SOL_SOCKET, c::SO_KEEPALIVE, 1)?;
    set(fd, c::IPPROTO_TCP, c::TCP_KEEPIDLE, 60)?;
    set(fd, c::IPPROTO_TCP, c::TCP_KEEPINTVL, 10)?;
    set(fd, c::IPPROTO_TCP, c::TCP_KEEPCNT, 6)
}

fn set(fd: i32, level: i32, name: i32, value: i32) -> io::Result<()>
    requires { SockOption level name }
{
    let mut bytes = [0u8; 16];
    bytes[..4].copy_from_slice(&value.to_ne_bytes());
    check(unsafe { c::setsockopt(fd, level, name, &bytes, 4) })
}

fn check(status: i32) -> io::Result<()>
    ensures { IsOk result ↔ (pos 0 ≤ℤ status) }
{
    if status < 0 {
        Err(io::Error::from_raw_os_error(os::errno()))
    } else {
        Ok(())
    }
}

// The bytes of C's `sockaddr_in` or `sockaddr_in6`, and how many they are.
fn encode(addr: SocketAddr) -> ([u8; c::_SS_SIZE], u32)
    ensures { result.1 ≤ 128 }
{
    let mut raw = [0u8; c::_SS_SIZE];
    match addr {
        SocketAddr::V4(v4) => {
            raw[..2].copy_from_slice(&(c::AF_INET as u16).to_ne_bytes());
            raw[2..4].copy_from_slice(&v4.port().to_be_bytes());
            raw[4..8].copy_from_slice(&v4.ip().octets());
            (raw, 16)
        }
        SocketAddr::V6(v6) => {
            raw[..2].copy_from_slice(&(c::AF_INET6 as u16).to_ne_bytes());
            raw[2..4].copy_from_slice(&v6.port().to_be_bytes());
            raw[8..24].copy_from_slice(&v6.ip().octets());
            raw[24..28].copy_from_slice(&v6.scope_id().to_ne_bytes());
            (raw, 28)
        }
    }
}
