//! The texts of a store's faults, and the numbers and texts of a migration's.

use super::expecting::expect;
use state_file::{MigrateFault, StoreFault};
use std::alloc::Global;

fn is_printed(alloc: Global, fault: StoreFault, text: &str) -> bool {
    match format!(in alloc; "{fault}") {
        Ok(printed) => printed.as_str() == text,
        Err(_) => false,
    }
}

const STOPPED: &str = "a call failed, and the place was not opened again since";

fn are_printed(alloc: Global) -> bool {
    let last_slot = "slot 4294967295 spells no record";
    is_printed(alloc, StoreFault::Stopped, STOPPED)
        && is_printed(alloc, StoreFault::Damaged(4_294_967_295), last_slot)
        && is_printed(alloc, StoreFault::DeviceFailed, "the device failed")
        && is_printed(alloc, StoreFault::OutOfMemory, "out of memory")
        && is_printed(alloc, StoreFault::Full, "the store is full")
}

#[test]
fn faults_are_printed(rt: HostRuntime) {
    expect(&rt, are_printed(rt.alloc()));
}

fn is_numbered(alloc: Global, fault: MigrateFault, number: u8, text: &str) -> bool {
    let is_number = fault.number() == number;
    match format!(in alloc; "{fault}") {
        Ok(printed) => is_number && printed.as_str() == text,
        Err(_) => false,
    }
}

fn are_numbered(alloc: Global) -> bool {
    is_numbered(alloc, MigrateFault::Stopped, 26, STOPPED)
        && is_numbered(alloc, MigrateFault::NoKey, 40, "there is no key")
        && is_numbered(
            alloc,
            MigrateFault::NotKeyFile,
            41,
            "the file is no key file",
        )
        && is_numbered(
            alloc,
            MigrateFault::Version,
            42,
            "the key file is not of version 1",
        )
        && is_numbered(alloc, MigrateFault::Damaged(7), 43, "slot 7 is damaged")
        && is_numbered(alloc, MigrateFault::Illegal(8), 44, "record 8 is not legal")
        && is_numbered(alloc, MigrateFault::DeviceFailed, 45, "the device failed")
        && is_numbered(alloc, MigrateFault::OutOfMemory, 46, "out of memory")
        && is_numbered(alloc, MigrateFault::KeyThere, 50, "there is a key")
        && is_numbered(alloc, MigrateFault::Full, 52, "the store is full")
}

#[test]
fn faults_have_numbers_and_texts(rt: HostRuntime) {
    expect(&rt, are_numbered(rt.alloc()));
}
