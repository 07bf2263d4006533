//! The files that a command names, read.
use exchange_faults::Fault;
use spread_host_faults::HostFault;
use spread_rules::Rulebook;
use std::fs::Files;
use std::{fs, io};

/// The bytes of that file.
pub fn read_file<'a>(rt: &(impl Files + AllocGlobal), path: &'a str) -> Result<Vec<u8>, Fault<'a>> {
    match fs::read(rt, path) {
        Ok(bytes) => Ok(bytes),
        Err(error) if error.kind() == io::ErrorKind::OutOfMemory => {
            Err(Fault::Host(HostFault::NoMemory(0)))
        }
        Err(_) => Err(Fault::File(path)),
    }
}

/// The rulebook of that file.
pub fn read_rules<'a>(
    rt: &(impl Files + AllocGlobal),
    path: &'a str,
) -> Result<Rulebook, Fault<'a>> {
    let text = read_file(rt, path)?;
    match Rulebook::read(&text) {
        Ok(rulebook) => Ok(rulebook),
        Err(fault) => Err(Fault::Host(HostFault::Rule(fault))),
    }
}

/// The bytes of each file.
pub fn read_files<'a>(
    rt: &(impl Files + AllocGlobal),
    paths: &[&'a str],
) -> Result<Vec<Vec<u8>>, Fault<'a>> {
    let mut files = Vec::new(rt.alloc());
    for path in paths {
        let file = read_file(rt, path)?;
        if files.push(file).is_err() {
            return Err(Fault::Host(HostFault::NoMemory(0)));
        }
    }
    Ok(files)
}
