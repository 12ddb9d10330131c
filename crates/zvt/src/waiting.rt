//! Tills that wait for a tap.
use std::alloc::Global;
use std::net::TcpStream;
use std::os::fd::RawFd;
use std::thread;
use std::time::Duration;
use zvt_runs::tcp::Door;
use zvt_tap::Arrivals;

/// Seconds before the tap tries again after the system refused it a connection, for example for want of a descriptor.
const REFUSED_SECONDS: u64 = 1;

/// The port where tills connect, and the tills that connected while another line went on.
#[derive(Drop)]
pub struct Waiting<'a> {
    pub door: &'a mut Door,
    pub tills: Vec<TcpStream>,
}

impl<'a> Waiting<'a> {
    /// No till has connected yet.
    pub fn at(alloc: Global, door: &'a mut Door) -> Waiting<'a> {
        Waiting {
            door,
            tills: Vec::new(alloc),
        }
    }

    /// The next connection of a till. Where the system refuses one, that is reported, and the tap tries again.
    pub fn next_till(&mut self, rt: &HostRuntime) -> Option<TcpStream> {
        if !self.tills.is_empty() {
            return Some(self.tills.remove(0));
        }
        for _try in 0..u64::MAX {
            match self.door.next() {
                Ok(till) => return Some(till),
                Err(why) => {
                    let _ = eprintln!(rt; "zvt: no connection from a till: {why}");
                    thread::sleep(rt, Duration::from_secs(REFUSED_SECONDS));
                }
            }
        }
        None
    }
}

impl Arrivals for Waiting<'_> {
    fn descriptor(&self) -> RawFd {
        self.door.descriptor()
    }

    fn next(&mut self) -> Option<TcpStream> {
        self.door.next().ok()
    }
}
