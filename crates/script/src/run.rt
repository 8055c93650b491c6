// A whole script.
use crate::lines::Lines;
use crate::replay::Replay;
use std::alloc::{AllocError, Global};
use text::trim::trim;

// What is run where no script is given: a job from the recorder to the aligner to the editor, over the queue.
const DEFAULT_JOB: &[u8] = b"carrier queue 4096
leg recorder
trace 0000000000000001000000000000000a
span 00000000000000b7
priority 2
traceparent write
leg aligner
traceparent read
span 00000000000000c8
traceparent write
leg editor
traceparent read
";

// Runs the script, or the default job where it is empty, and answers what there is to print. A line that cannot be read is said to be
// so, and the rest goes on.
pub fn run(heap: Global, script: &[u8]) -> Result<Vec<u8>, AllocError> {
    let text = if trim(script).is_empty() {
        DEFAULT_JOB
    } else {
        script
    };
    let mut lines = Lines::new(text);
    let mut replay = Replay::new(heap);
    let mut chosen = replay.run_slots(&mut lines)?;
    // There are fewer sections than bytes.
    for _ in 0..text.len() {
        let Some(line) = chosen else {
            break;
        };
        chosen = replay.run_choice(line, &mut lines)?;
    }
    Ok(replay.into_shown())
}
