use anyhow::bail;
use std::fs;
use std::rt::Files;

/// The most bytes of memory that the program has had at once so far, as Linux tells.
pub fn peak(rt: &(impl Files + AllocGlobal)) -> anyhow::Result<u64> {
    let status = fs::read_to_string(rt, "/proc/self/status")?;
    for line in status.lines() {
        if let Some(size) = line.strip_prefix("VmHWM:") {
            return kibibytes(size);
        }
    }
    bail!("the system doesn't tell how much memory the program has had")
}

// A size such as ` 512 kB` in bytes.
fn kibibytes(size: &str) -> anyhow::Result<u64> {
    let Some(number) = size.trim().strip_suffix(" kB") else {
        bail!("the system tells a size that isn't in kB");
    };
    Ok(number.parse::<u64>()?.saturating_mul(1024))
}
