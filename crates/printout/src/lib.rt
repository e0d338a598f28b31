// What the box prints for the bytes of a file: the whole job of the program `sheet`, as a function on slices.
#![tactic(auto)]

ghost use Rattle.printout.specs.Printout.{PrintsFile};

// Prints what the reader answers for the sheet that the bytes are the file of, or that they are no sheet's. How long the text is, or None
// where the buffer is shorter.
pub fn print_file(
    bytes: &[u8],
    rows: &mut [u32],
    records: &mut [u32],
    out: &mut [u8],
) -> Option<usize>
    ensures { PrintsFile bytes.now rows.old records.old out.old rows.new records.new out.new result }
{
    let Some(sheet) = sheet_file::sheet_of(bytes) else {
        return text::print_bad_file(out);
    };
    let answer = reader::read(sheet.kinds, sheet.flags, rows, records);
    text::print_answer(out, answer, rows, records)
}
