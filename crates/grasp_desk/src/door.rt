//! A door of a desk: a Unix socket that nobody else can open.
use grasp_cbor::Chars;
use libc::net as c;
use mio::net::{UnixListener, UnixStream};
use std::fs::{Files, Permissions};
use std::io::ErrorKind;
use std::net::Net;
use std::os::fd::{AsFd, AsRawFd};
use std::os::unix::fs::{FileTypeExt, PermissionsExt};
use std::os::unix::net::{self, SocketAddr};
use std::{fs, io};

// How many connections may wait to be taken.
const BACKLOG: i32 = 16;

/// A listening socket with its path.
#[derive(Drop)]
pub(crate) struct Door {
    pub(crate) listener: UnixListener,
    pub(crate) path: Chars,
    // Somebody may be there. The system reports each change once.
    pub(crate) is_ready: bool,
}

impl Door {
    /// Listens at this path, for those whom the mode of a file lets in. A connection is refused until the system is told to listen,
    /// so none comes before the mode is set. A socket of a dead node is removed, and one of a living node is `AddrInUse`.
    pub(crate) fn open<R: Files + Net>(rt: &R, path: Chars, mode: u16) -> io::Result<Door> {
        let at = SocketAddr::from_pathname(path.text())?;
        clear(rt, &at, path.text())?;
        let fd = rt.unix_socket()?;
        rt.bind_unix(fd.as_fd(), &at)?;
        fs::set_permissions(
            rt,
            path.text(),
            Permissions::from_mode(u32::from(mode & 0o777)),
        )?;
        if c::listen(fd.as_raw_fd(), BACKLOG) < 0 {
            return Err(io::Error::from_raw_os_error(os::errno()));
        }
        let listener = net::UnixListener::from(fd);
        listener.set_nonblocking(true)?;
        Ok(Door {
            listener: UnixListener::from_std(listener),
            path,
            is_ready: true,
        })
    }

    /// The next connection, where somebody is there.
    pub(crate) fn accept(&mut self) -> Option<UnixStream> {
        if !self.is_ready {
            return None;
        }
        match self.listener.accept() {
            Ok((socket, _)) => Some(socket),
            Err(error) => {
                self.is_ready = error.kind() == ErrorKind::Interrupted;
                None
            }
        }
    }

    /// Removes its path.
    pub(crate) fn remove<R: Files>(&self, rt: &R) {
        let _ = fs::remove_file(rt, self.path.text());
    }
}

// Sees that nothing is at the path, or that nobody listens at the socket that is there.
fn clear<R: Files + Net>(rt: &R, at: &SocketAddr, path: &str) -> io::Result<()> {
    match UnixStream::connect_addr(rt, at) {
        Ok(_) => Err(io::Error::from(ErrorKind::AddrInUse)),
        Err(error) => match error.kind() {
            ErrorKind::WouldBlock => Err(io::Error::from(ErrorKind::AddrInUse)),
            ErrorKind::NotFound => Ok(()),
            ErrorKind::ConnectionRefused => remove_dead(rt, path),
            _ => Err(error),
        },
    }
}

// A file that is no socket stays.
fn remove_dead<R: Files>(rt: &R, path: &str) -> io::Result<()> {
    if fs::symlink_metadata(rt, path)?.file_type().is_socket() {
        fs::remove_file(rt, path)
    } else {
        Err(io::Error::from(ErrorKind::AlreadyExists))
    }
}
