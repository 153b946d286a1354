// What is done to sockets for which the library of sockets has no call.
use libc::net as c;
use mio::net::{TcpListener, TcpStream};
use std::os::fd::{AsRawFd, RawFd};

/// So many seconds of silence pass until it is asked whether the peer is still there.
const SILENCE: i32 = 60;

/// So many seconds pass between two questions.
const BETWEEN: i32 = 15;

/// So many questions may have no answer.
const QUESTIONS: i32 = 4;

/// Resets a connection: what was not sent is dropped, and the peer is told that it broke off. A socket that is connected to an address of no family is
/// told so by the system.
pub fn reset(stream: &TcpStream) {
    let nowhere = [0; c::_SS_SIZE];
    let _ = unsafe { c::connect(stream.as_raw_fd(), &nowhere, 16) };
}

/// An option's value.
fn value_of(number: i32) -> [u8; 16] {
    let mut value = [0; 16];
    value[..4].copy_from_slice(&number.to_ne_bytes());
    value
}

/// Has the system find out where the peer of a connection is gone without a word: after 60 seconds of silence, in 60 more. The connections that a
/// listener accepts have what it has. What the system refuses is left as it was.
pub fn probe(listener: &TcpListener) {
    let fd: RawFd = listener.as_raw_fd();
    let _ = unsafe { c::setsockopt(fd, c::SOL_SOCKET, c::SO_KEEPALIVE, &value_of(1), 4) };
    let _ = unsafe { c::setsockopt(fd, c::IPPROTO_TCP, c::TCP_KEEPIDLE, &value_of(SILENCE), 4) };
    let _ = unsafe { c::setsockopt(fd, c::IPPROTO_TCP, c::TCP_KEEPINTVL, &value_of(BETWEEN), 4) };
    let _ = unsafe { c::setsockopt(fd, c::IPPROTO_TCP, c::TCP_KEEPCNT, &value_of(QUESTIONS), 4) };
}
