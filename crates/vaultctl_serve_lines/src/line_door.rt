//! The door of lines: a port of this machine, or a path.
use crate::place::LinePlace;
use std::fs::{self, Files};
use std::io::{self, Read, Write};
use std::net::{Ipv4Addr, Net, Shutdown, TcpListener, TcpStream};
use std::os::fd::AsRawFd;
use std::os::unix::fs::FileTypeExt;
use std::os::unix::net::{UnixListener, UnixStream};
use std::time::Duration;
use vaultctl_serve::peer::Peer;

/// Where lines come in.
#[derive(Drop)]
pub enum LineListener {
    /// A port of 127.0.0.1.
    Port(TcpListener),
    /// A Unix socket.
    Path(UnixListener),
}

/// The other side of a connection of lines.
#[derive(Drop)]
pub enum LinePeer {
    /// It came to a port.
    Port(TcpStream),
    /// It came to a Unix socket.
    Path(UnixStream),
}

impl Peer for LinePeer {
    fn read_within(&self, buf: &mut [u8], limit: Duration) -> io::Result<usize> {
        match self {
            LinePeer::Port(stream) => stream.read_within(buf, limit),
            LinePeer::Path(stream) => {
                stream.set_read_timeout(Some(limit))?;
                let mut reader = stream;
                reader.read(buf)
            }
        }
    }

    fn write_within(&self, buf: &[u8], limit: Duration) -> io::Result<usize> {
        match self {
            LinePeer::Port(stream) => stream.write_within(buf, limit),
            LinePeer::Path(stream) => {
                stream.set_write_timeout(Some(limit))?;
                let mut writer = stream;
                writer.write(buf)
            }
        }
    }

    fn end(&self) -> io::Result<()> {
        match self {
            LinePeer::Port(stream) => stream.end(),
            LinePeer::Path(stream) => stream.shutdown(Shutdown::Write),
        }
    }
}

impl LinePeer {
    /// The number of its descriptor.
    pub fn descriptor(&self) -> i32 {
        match self {
            LinePeer::Port(stream) => stream.as_raw_fd(),
            LinePeer::Path(stream) => stream.as_raw_fd(),
        }
    }
}

/// Removes the socket that an earlier server left at the path. Anything else is left there.
fn clear<F: Files>(files: &F, path: &str) -> io::Result<()> {
    match fs::symlink_metadata(files, path) {
        Ok(found) if found.file_type().is_socket() => fs::remove_file(files, path),
        _ => Ok(()),
    }
}

impl LineListener {
    /// Listens at that place, so that no accept waits. Of a path what an earlier server left is removed first; whoever
    /// calls this has the vault to itself, so no other server of that vault listens there.
    ///
    /// The error is the system's: the port isn't free or isn't for this user, or no socket can be made at the path.
    pub fn at<R: Net<Stream = TcpStream, Listener = TcpListener> + Files>(
        rt: &R,
        place: LinePlace<'_>,
    ) -> io::Result<LineListener> {
        match place {
            LinePlace::Port(port) => {
                let listener = TcpListener::bind(rt, (Ipv4Addr::LOCALHOST, port))?;
                listener.set_nonblocking(true)?;
                Ok(LineListener::Port(listener))
            }
            LinePlace::Path(path) => {
                clear(rt, path)?;
                let listener = UnixListener::bind(rt, path)?;
                listener.set_nonblocking(true)?;
                Ok(LineListener::Path(listener))
            }
        }
    }

    /// The number of its descriptor.
    pub fn descriptor(&self) -> i32 {
        match self {
            LineListener::Port(listener) => listener.as_raw_fd(),
            LineListener::Path(listener) => listener.as_raw_fd(),
        }
    }

    /// Takes the next connection.
    pub fn accept(&self) -> io::Result<LinePeer> {
        match self {
            LineListener::Port(listener) => {
                let (stream, _) = listener.accept()?;
                Ok(LinePeer::Port(stream))
            }
            LineListener::Path(listener) => {
                let (stream, _) = listener.accept()?;
                Ok(LinePeer::Path(stream))
            }
        }
    }
}
