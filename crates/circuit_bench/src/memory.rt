use anyhow::Result;
use std::fs;

/// The most memory that the process has had so far, in bytes, or 0 where the system does not tell.
pub fn peak_bytes(rt: &HostRuntime) -> Result<u64> {
    let status = fs::read_to_string(rt, "/proc/self/status")?;
    for line in status.lines() {
        if let Some(rest) = line.strip_prefix("VmHWM:") {
            let kilobytes = rest.trim().trim_end_matches(" kB").parse::<u32>()?;
            return Ok(u64::from(kilobytes) * 1024);
        }
    }
    Ok(0)
}
