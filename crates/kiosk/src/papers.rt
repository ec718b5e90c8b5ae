// The printer's paper.
use bench::BenchChip;
use port::Direction;

// What the printers on the bus have taken, line by line, beside the bytes of the slips that were meant.
pub fn show_paper(rt: &HostRuntime, chip: &BenchChip, slips: usize) -> anyhow::Result<()> {
    for endpoint in chip.endpoints() {
        let state = endpoint.state();
        if state.direction == Direction::Out {
            show_taken(rt, state.taken, slips)?;
        }
    }
    Ok(())
}

fn show_taken(rt: &HostRuntime, taken: &[u8], slips: usize) -> anyhow::Result<()> {
    let bytes = taken.len();
    let more = bytes.saturating_sub(slips);
    println!(rt;
        "The printer has taken {bytes} bytes, {more} more than both slips have. Its paper reads:"
    )?;
    let paper = std::str::from_utf8(taken)?;
    for line in paper.lines() {
        println!(rt; "  | {line}")?;
    }
    Ok(())
}
