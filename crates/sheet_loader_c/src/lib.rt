#![tactic(auto)]
// The doors of sheet_loader under their names in C. C passes a slice as a pointer and the number of its elements; usize is size_t. The instrument is a number, since C
// names no enum of Rattle's.
ghost use Rattle.sheet.specs.Model.{entry};
ghost use Rattle.sheet_loader.specs.Doors.{LoadsInto, LoadsOn, TestsWordOn, ReadsOn};

#[unsafe(no_mangle)]
pub extern "C" fn sheet_loader_read(instrument: usize, sheet: &[u8], out: &mut [usize]) -> usize
    ensures { ReadsOn instrument sheet.now out.old out.new result }
{
    sheet_loader::sheet_loader_read(instrument, sheet, out)
}

#[unsafe(no_mangle)]
pub extern "C" fn sheet_loader_load(instrument: usize, sheet: &[u8], out: &mut [usize]) -> usize
    ensures { LoadsOn instrument sheet.now out.old out.new result }
{
    sheet_loader::sheet_loader_load(instrument, sheet, out)
}

#[unsafe(no_mangle)]
pub extern "C" fn sheet_loader_load_entry(sheet: &[u8], out: &mut [usize]) -> usize
    ensures { LoadsInto entry sheet.now out.old out.new result }
{
    sheet_loader::sheet_loader_load_entry(sheet, out)
}

#[unsafe(no_mangle)]
pub extern "C" fn sheet_loader_word_test(
    instrument: usize,
    sheet: &[u8],
    condition: usize,
    word: &[u8],
    out: &mut [usize],
) -> usize
    ensures { TestsWordOn instrument sheet.now condition word.now out.old out.new result }
{
    sheet_loader::sheet_loader_word_test(instrument, sheet, condition, word, out)
}
