//! What a sweep counts is what plays write.

ghost use Rattle.sweep_player.specs.SweptLaws.{GeneratedAreShort, StepsAreRead, SweepsCountPlays};

use sweep::steps_fit;

/// Of steps that lines of a schedule can tell, the text is read as the steps are. Each generated
/// step is one, with a line of at most 19,998 bytes. So a sweep counts of the schedule of a seed
/// what a play writes of its text.
pub fn swept_texts()
    ensures read { StepsAreRead }
    ensures short { GeneratedAreShort }
    ensures counts { SweepsCountPlays }
{
    steps_fit();
}
