// Writing files of each kind.
ghost use Rattle.std.specs.Prelude.{length};
ghost use Rattle.files.specs.Writing.{file_of, file_answer};
ghost use Rattle.capi.specs.Kinds.{kind_by};
ghost use Rattle.capi.specs.Writing.{Writes};

// A file of a kind, from the words of its records: 0, and its length; 4, and the place of the first record that its layout can't hold; 41
// where `out` is too short. On both refusals `out` keeps its bytes; bytes behind a written file stay.
#[unsafe(no_mangle)]
pub extern "C" fn dagskimra_write(kind: u8, words: &[u64], out: &mut [u8], more: &mut u64) -> u8
    ensures { Writes (file_answer (kind_by kind) words.now (length out.old)) (file_of (kind_by kind) words.now) out.old out.new result more.new }
{
    capi::writing::dagskimra_write(kind, words, out, more)
}
