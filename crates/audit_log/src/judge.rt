// What the library says of a line.
ghost use Rattle.std.specs.Prelude.{◌≡◌};
ghost use Rattle.reader.specs.Goals.{read_number};
ghost use Rattle.recogniser.specs.Recognised.{Recognised};

use audit_tally::kinds::Verdict;

pub fn judge(goal: u32, line: &[u8]) -> Verdict
    ensures { (result.reading ≡ read_number goal line.now) × Recognised line.now result.ours }
{
    let reading = reader::goals::read_number(goal, line);
    let ours = recogniser::recognise(line);
    Verdict { reading, ours }
}
