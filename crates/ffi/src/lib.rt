// The verdict, and the call for a whole class, for callers in C and Rust: `rt lib` makes the library. A slice passes as a pointer and then a length.
#![tactic(auto)]

ghost use Rattle.ffi.specs.Export.{Exported, ExportedClass};

// 0 consistent, 65,536 and the set, twice 65,536 and the refusal's number.
#[unsafe(no_mangle)]
pub extern "C" fn vodjimar_verdict(file: &[u8], work: &mut [u8], record: &mut [u8]) -> u32
    ensures { Exported file.now work.old work.new «record».old «record».new result }
{
    judge::code(judge::told(judge::verdict(file, work, record)))
}

// A whole class: how many places are filled, or twice 65,536 and the number that refuses the call.
#[unsafe(no_mangle)]
pub extern "C" fn vodjimar_class(input: &[u8], work: &mut [u8], answers: &mut [u8]) -> u32
    ensures { ExportedClass input.now work.old work.new answers.old answers.new result }
{
    class::code(class::told(class::verdicts(input, work, answers)))
}
