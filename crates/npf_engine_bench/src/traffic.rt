// The packets of captures, in the order of their times.
use crate::read_file;
use anyhow::{Error, anyhow};
use npf_pcap::{Capture, read_capture};
use npf_types::limits::MAX_CAPTURE_BYTES;
use npf_types::{Dir, Link, List};
use std::alloc::{AllocError, Global};

/// A packet that crosses the interface this way.
#[derive(Drop)]
pub struct Crossing {
    pub time: u64,
    pub link: Link,
    pub dir: Dir,
    pub bytes: List<u8>,
}

/// The packets of captures, each named as in|out:FILE.
pub fn captured(rt: &HostRuntime, words: &[String]) -> Result<Vec<Crossing>, Error> {
    let mut crossings = Vec::new(rt.alloc());
    for word in words {
        add(rt, &mut crossings, word.as_str())?;
    }
    crossings.sort_by_key(|crossing| crossing.time)?;
    Ok(crossings)
}

// Adds the packets of a capture.
fn add(rt: &HostRuntime, crossings: &mut Vec<Crossing>, word: &str) -> Result<(), Error> {
    let Some((way, file)) = word.split_once(':') else {
        return Err(anyhow!("{word}: not in|out:FILE"));
    };
    let dir = if way == "out" { Dir::Out } else { Dir::In };
    let capture = capture_of(rt, file)?;
    for record in capture.records.into_vec() {
        crossings.push(Crossing {
            time: record.time,
            link: capture.link,
            dir,
            bytes: record.bytes,
        })?;
    }
    Ok(())
}

fn capture_of(rt: &HostRuntime, file: &str) -> Result<Capture, Error> {
    let bytes = read_file(rt, file, MAX_CAPTURE_BYTES)?;
    if bytes.len() > MAX_CAPTURE_BYTES {
        return Err(anyhow!("{file}: too long"));
    }
    match read_capture(rt.alloc(), &bytes) {
        Ok(capture) => Ok(capture),
        Err(_) => Err(anyhow!("{file}: not a capture")),
    }
}

/// One packet of UDP from 10.0.0.1, port 5000, to 192.0.2.1, port 53, that comes in.
pub fn example(alloc: Global) -> Result<Vec<Crossing>, AllocError> {
    let bytes = [
        0x45, 0, 0, 28, 0, 0, 0, 0, 64, 17, 0, 0, 10, 0, 0, 1, 192, 0, 2, 1, 0x13, 0x88, 0, 53, 0,
        8, 0, 0,
    ];
    let crossing = Crossing {
        time: 0,
        link: Link::Raw,
        dir: Dir::In,
        bytes: List::of_vec(Vec::from_array(alloc, bytes)?),
    };
    Ok(Vec::from_array(alloc, [crossing])?)
}
