// The sheet runner for C and Rust programs to link. A slice comes as a pointer and a length.
#![tactic(auto)]

ghost use Rattle.std.specs.Prelude.{◌≡◌};
ghost use Rattle.rules.specs.Answers.{number};
ghost use Rattle.rules.specs.Sheet.{run_sheet};

// Runs the sheet, writes each command's answer as one byte into the room, and hands back the number of the sheet's own answer: C has no
// Answer.
#[unsafe(no_mangle)]
pub extern "C" fn sparkcushion_run(s: &[u8], room: &mut [u8]) -> u8
    ensures { (result ≡ number (run_sheet s.now room.old).ran.answer) × (room.new ≡ (run_sheet s.now room.old).room) }
{
    let ran = sheet::run(s, room);
    u8::from(ran.answer)
}
