// Filing a file.
ghost use Rattle.store.specs.Reads.{lent};
ghost use Rattle.capi.specs.Offer.{FilesAs};

// Files a file: 0, and the count of the journal records whose number it names; or 44, 1, 2, 3, 4 with the place of its first faulty record, the
// field in it (0: none) and the number of the cause, 5, and no byte of the buffers changes.
#[unsafe(no_mangle)]
pub extern "C" fn dagskimra_file(
    table: &[u8],
    files: &mut [u8],
    regular: &mut [u8],
    corrections: &mut [u8],
    entries: &mut [u8],
    kind: u8,
    publisher: &[u8],
    day: u16,
    text: &[u8],
    more: &mut u64,
    field: &mut u64,
    cause: &mut u64,
) -> u8
    ensures { FilesAs (lent table.now files.old regular.old corrections.old entries.old) kind publisher.now day text.now result more.new field.new cause.new (lent table.now files.new regular.new corrections.new entries.new) }
{
    capi::offer::dagskimra_file(
        table,
        files,
        regular,
        corrections,
        entries,
        kind,
        publisher,
        day,
        text,
        more,
        field,
        cause,
    )
}
