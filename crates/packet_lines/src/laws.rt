//! What is printed is read again.
ghost use Rattle.std.specs.Prelude.{◌≡◌, ◌++◌, Ok, codes, decimal};
ghost use Rattle.packet_lines.specs.Answers.{OneAnswerToEachLine};
ghost use Rattle.packet_lines.specs.Reading.{reading};
ghost use Rattle.packet_lines.specs.Reading.Asked.{pack, unpack};
ghost use Rattle.packet_lines.specs.Texts.{codes_text, packet_text};

use packet::CodeNumbers;

/// Carries a theorem: behind `pack` and a rate, the text of any codes asks for them to be packed at that rate.
pub fn pack_line_reads_back(rate: u8, numbers: CodeNumbers)
    ensures { reading (codes "pack " ++ (decimal rate ++ (codes " " ++ codes_text numbers)))
        ≡ Ok (pack rate numbers) }
{}

/// Carries a theorem: behind `unpack` and a rate, the text of any bytes asks for them to be unpacked at that rate.
pub fn unpack_line_reads_back(rate: u8, packet: &[u8])
    ensures { reading (codes "unpack " ++ (decimal rate ++ (codes " " ++ packet_text packet.now)))
        ≡ Ok (unpack rate packet.now) }
{}

/// Carries a theorem: no line has two answers.
pub fn one_answer_to_each_line()
    ensures { OneAnswerToEachLine }
{}
