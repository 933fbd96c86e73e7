//! A law of the words' definition. The call does nothing: its contract is the law.
ghost use Rattle.std.specs.Prelude.{◌≡◌, ◌∷◌, [], true, false, codes, Some, None};
ghost use Rattle.sliq_words.specs.Asked.{asked_of, request, settings};

use crate::reading::Task;

/// What small lists of words ask for, by the definition alone: options in any order and place, in one word or two; `--` before a name; a command of
/// two files, one of standard input, one of three numbers, one of a file and two numbers; and words that ask for nothing, since an option stands
/// there twice, is cut short, or lacks its value.
pub fn small_command_lines()
    ensures in_order { asked_of (codes "sliq" ∷ codes "sim" ∷ codes "--width" ∷ codes "8" ∷ codes "a" ∷ codes "--nodes=64" ∷ [])
        ≡ Some (request (Task.Sim None) (codes "a" ∷ []) (settings 8 64 65536 16 0)) }
    ensures in_another { asked_of (codes "sliq" ∷ codes "sim" ∷ codes "a" ∷ codes "--nodes" ∷ codes "64" ∷ codes "--width=8" ∷ [])
        ≡ Some (request (Task.Sim None) (codes "a" ∷ []) (settings 8 64 65536 16 0)) }
    ensures bits { asked_of (codes "sliq" ∷ codes "sim" ∷ codes "a" ∷ codes "--input=01" ∷ [])
        ≡ Some (request (Task.Sim (Some (false ∷ true ∷ []))) (codes "a" ∷ []) (settings 128 1048576 65536 16 0)) }
    ensures behind_dashes { asked_of (codes "sliq" ∷ codes "sim" ∷ codes "--" ∷ codes "-x" ∷ [])
        ≡ Some (request (Task.Sim None) (codes "-x" ∷ []) (settings 128 1048576 65536 16 0)) }
    ensures two_files { asked_of (codes "sliq" ∷ codes "eq" ∷ codes "b" ∷ codes "a" ∷ [])
        ≡ Some (request Task.Eq (codes "b" ∷ codes "a" ∷ []) (settings 128 1048576 65536 16 0)) }
    ensures standard_input { asked_of (codes "sliq" ∷ codes "prob" ∷ codes "-" ∷ [])
        ≡ Some (request Task.Prob (codes "-" ∷ []) (settings 128 1048576 65536 16 0)) }
    ensures three_numbers { asked_of (codes "sliq" ∷ codes "demo" ∷ codes "3" ∷ codes "4" ∷ codes "5" ∷ [])
        ≡ Some (request (Task.Demo 3 4 5) [] (settings 128 1048576 65536 16 0)) }
    ensures file_and_numbers { asked_of (codes "sliq" ∷ codes "sample" ∷ codes "a" ∷ codes "02" ∷ codes "7" ∷ [])
        ≡ Some (request (Task.Sample 2 7) (codes "a" ∷ []) (settings 128 1048576 65536 16 0)) }
    ensures twice { asked_of (codes "sliq" ∷ codes "sim" ∷ codes "a" ∷ codes "--width=8" ∷ codes "--width=8" ∷ []) ≡ None }
    ensures cut_short { asked_of (codes "sliq" ∷ codes "sim" ∷ codes "a" ∷ codes "--wid" ∷ codes "8" ∷ []) ≡ None }
    ensures no_value { asked_of (codes "sliq" ∷ codes "sim" ∷ codes "a" ∷ codes "--width" ∷ []) ≡ None }
{
    let _ = Task::Eq;
}
