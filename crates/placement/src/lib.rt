//! Which server a partition of a directory lies on.
//!
//! It stands on std alone. No call takes memory. The contract for the layers above: partition `part` of directory
//! `dir` lies on server `(dir + part) mod servers`, so the partitions of one directory go round the servers from
//! the one that its number names.
#![tactic(auto)]

ghost use Rattle.std.specs.Prelude.{◌≡◌, ◌^◌, ◌<◌, ◌≤◌};
ghost use Rattle.placement.specs.Placement.{server_of};

/// The server of partition `part` of the directory numbered `dir`, among servers numbered from 0
/// (`crates/placement/README.md`, "Placement").
pub fn server_of(dir: u64, part: u32, servers: u32) -> u32
    requires some_server { 1 ≤ servers }
    requires dir_fits { dir < 2 ^ 48 }
    ensures value { result ≡ server_of dir part servers }
    ensures below { result < servers }
{
    ((dir + u64::from(part)) % u64::from(servers)) as u32
}

/// The server of partition 0 of a directory.
pub fn zeroth(dir: u64, servers: u32) -> u32
    requires some_server { 1 ≤ servers }
    requires dir_fits { dir < 2 ^ 48 }
    ensures value { result ≡ server_of dir 0 servers }
    ensures below { result < servers }
{
    server_of(dir, 0, servers)
}
