//! The four layouts of a packet, as the packet structure tables have them (IS-96, A.1.4.7.1.2 to A.1.4.7.4), behind one
//! interface. Bit numbers stand beside the code bits; the highest-numbered bit is the top bit of byte 0.
ghost use Rattle.std.specs.Prelude.{◌≡◌, slice_get};
ghost use Rattle.service.specs.declared.rates.Rate.{Rate};
ghost use Rattle.service.specs.declared.rates.Rate.TheVariants.{Full, Half, Quarter, Eighth};
ghost use Rattle.packet_layout.specs.Layouts.{at, layout};
ghost use Rattle.packet_layout.specs.Laws.{EachCodeBitOnce};
ghost use Rattle.packet_layout.proofs.Laws.{full, half, quarter, eighth};

use packet_layout::{CodeBit, code_bit};

/// A kind of packet: which code bit each of its bits carries.
pub(crate) trait PacketKind {
    ghost rate: { Rate };

    /// The code bit at a place of the packet, counted from 0 at the top bit of byte 0. A spare place carries none.
    fn code_bit(place: usize) -> Option<CodeBit>
        ensures { result ≡ at (layout rate) place };

    /// Each code bit of the rate stands at exactly one place.
    ghost each_once: { EachCodeBitOnce rate (layout rate) };
}

/// The code bit at a place of a table.
pub(crate) fn code_bit_at(table: &[CodeBit], place: usize) -> Option<CodeBit>
    ensures { result ≡ slice_get table.now place }
{
    table.get(place).copied()
}

/// A packet at Rate 1.
pub(crate) struct FullPacket;

// Table A.1.4.7.1.2-1.
const FULL: [CodeBit; 171] = [
    code_bit!(Lsp, 1, 2), // 170
    code_bit!(Lsp, 1, 3), // 169
    code_bit!(Lsp, 2, 2), // 168
    code_bit!(Lsp, 2, 3), // 167
    code_bit!(Lsp, 3, 2), // 166
    code_bit!(Lsp, 3, 3), // 165
    code_bit!(Lsp, 4, 2), // 164
    code_bit!(Lsp, 4, 3), // 163
    code_bit!(Lsp, 5, 2), // 162
    code_bit!(Lsp, 5, 3), // 161
    code_bit!(Lsp, 6, 2), // 160
    code_bit!(Lsp, 6, 3), // 159
    code_bit!(Lsp, 7, 2), // 158
    code_bit!(Lsp, 7, 3), // 157
    code_bit!(Lsp, 8, 2), // 156
    code_bit!(Lsp, 8, 3), // 155
    code_bit!(Lsp, 9, 2), // 154
    code_bit!(Lsp, 9, 3), // 153
    code_bit!(Lsp, 10, 2), // 152
    code_bit!(Lsp, 10, 3), // 151
    code_bit!(Lsp, 1, 1), // 150
    code_bit!(Lsp, 1, 0), // 149
    code_bit!(Lsp, 2, 1), // 148
    code_bit!(Lsp, 2, 0), // 147
    code_bit!(Lsp, 3, 1), // 146
    code_bit!(Lsp, 3, 0), // 145
    code_bit!(Lsp, 4, 1), // 144
    code_bit!(Cbgain, 1, 1), // 143
    code_bit!(Lsp, 4, 0), // 142
    code_bit!(Lsp, 5, 1), // 141
    code_bit!(Lsp, 5, 0), // 140
    code_bit!(Lsp, 6, 1), // 139
    code_bit!(Lsp, 6, 0), // 138
    code_bit!(Lsp, 7, 1), // 137
    code_bit!(Lsp, 7, 0), // 136
    code_bit!(Cbgain, 2, 1), // 135
    code_bit!(Lsp, 8, 1), // 134
    code_bit!(Lsp, 8, 0), // 133
    code_bit!(Lsp, 9, 1), // 132
    code_bit!(Lsp, 9, 0), // 131
    code_bit!(Lsp, 10, 1), // 130
    code_bit!(Lsp, 10, 0), // 129
    code_bit!(Pgain, 1, 2), // 128
    code_bit!(Cbgain, 3, 1), // 127
    code_bit!(Pgain, 1, 1), // 126
    code_bit!(Pgain, 1, 0), // 125
    code_bit!(Plag, 1, 6), // 124
    code_bit!(Plag, 1, 5), // 123
    code_bit!(Plag, 1, 4), // 122
    code_bit!(Plag, 1, 3), // 121
    code_bit!(Plag, 1, 2), // 120
    code_bit!(Cbgain, 4, 1), // 119
    code_bit!(Plag, 1, 1), // 118
    code_bit!(Plag, 1, 0), // 117
    code_bit!(Cbindex, 1, 6), // 116
    code_bit!(Cbindex, 1, 5), // 115
    code_bit!(Cbindex, 1, 4), // 114
    code_bit!(Cbindex, 1, 3), // 113
    code_bit!(Cbindex, 1, 2), // 112
    code_bit!(Cbgain, 5, 1), // 111
    code_bit!(Cbindex, 1, 1), // 110
    code_bit!(Cbindex, 1, 0), // 109
    code_bit!(Cbgain, 1, 2), // 108
    code_bit!(Cbgain, 1, 0), // 107
    code_bit!(Cbindex, 2, 6), // 106
    code_bit!(Cbindex, 2, 5), // 105
    code_bit!(Cbindex, 2, 4), // 104
    code_bit!(Cbgain, 6, 1), // 103
    code_bit!(Cbindex, 2, 3), // 102
    code_bit!(Cbindex, 2, 2), // 101
    code_bit!(Cbindex, 2, 1), // 100
    code_bit!(Cbindex, 2, 0), // 99
    code_bit!(Cbgain, 2, 2), // 98
    code_bit!(Cbgain, 2, 0), // 97
    code_bit!(Pgain, 2, 2), // 96
    code_bit!(Cbgain, 7, 1), // 95
    code_bit!(Pgain, 2, 1), // 94
    code_bit!(Pgain, 2, 0), // 93
    code_bit!(Plag, 2, 6), // 92
    code_bit!(Plag, 2, 5), // 91
    code_bit!(Plag, 2, 4), // 90
    code_bit!(Plag, 2, 3), // 89
    code_bit!(Plag, 2, 2), // 88
    code_bit!(Cbgain, 8, 1), // 87
    code_bit!(Plag, 2, 1), // 86
    code_bit!(Plag, 2, 0), // 85
    code_bit!(Cbindex, 3, 6), // 84
    code_bit!(Cbindex, 3, 5), // 83
    code_bit!(Cbindex, 3, 4), // 82
    code_bit!(Cbindex, 3, 3), // 81
    code_bit!(Cbindex, 3, 2), // 80
    code_bit!(Pcb, 1, 10), // 79
    code_bit!(Cbindex, 3, 1), // 78
    code_bit!(Cbindex, 3, 0), // 77
    code_bit!(Cbgain, 3, 2), // 76
    code_bit!(Cbgain, 3, 0), // 75
    code_bit!(Cbindex, 4, 6), // 74
    code_bit!(Cbindex, 4, 5), // 73
    code_bit!(Cbindex, 4, 4), // 72
    code_bit!(Pcb, 1, 9), // 71
    code_bit!(Cbindex, 4, 3), // 70
    code_bit!(Cbindex, 4, 2), // 69
    code_bit!(Cbindex, 4, 1), // 68
    code_bit!(Cbindex, 4, 0), // 67
    code_bit!(Cbgain, 4, 2), // 66
    code_bit!(Cbgain, 4, 0), // 65
    code_bit!(Pgain, 3, 2), // 64
    code_bit!(Pcb, 1, 8), // 63
    code_bit!(Pgain, 3, 1), // 62
    code_bit!(Pgain, 3, 0), // 61
    code_bit!(Plag, 3, 6), // 60
    code_bit!(Plag, 3, 5), // 59
    code_bit!(Plag, 3, 4), // 58
    code_bit!(Plag, 3, 3), // 57
    code_bit!(Plag, 3, 2), // 56
    code_bit!(Pcb, 1, 7), // 55
    code_bit!(Plag, 3, 1), // 54
    code_bit!(Plag, 3, 0), // 53
    code_bit!(Cbindex, 5, 6), // 52
    code_bit!(Cbindex, 5, 5), // 51
    code_bit!(Cbindex, 5, 4), // 50
    code_bit!(Cbindex, 5, 3), // 49
    code_bit!(Cbindex, 5, 2), // 48
    code_bit!(Pcb, 1, 6), // 47
    code_bit!(Cbindex, 5, 1), // 46
    code_bit!(Cbindex, 5, 0), // 45
    code_bit!(Cbgain, 5, 2), // 44
    code_bit!(Cbgain, 5, 0), // 43
    code_bit!(Cbindex, 6, 6), // 42
    code_bit!(Cbindex, 6, 5), // 41
    code_bit!(Cbindex, 6, 4), // 40
    code_bit!(Pcb, 1, 5), // 39
    code_bit!(Cbindex, 6, 3), // 38
    code_bit!(Cbindex, 6, 2), // 37
    code_bit!(Cbindex, 6, 1), // 36
    code_bit!(Cbindex, 6, 0), // 35
    code_bit!(Cbgain, 6, 2), // 34
    code_bit!(Cbgain, 6, 0), // 33
    code_bit!(Pgain, 4, 2), // 32
    code_bit!(Pcb, 1, 4), // 31
    code_bit!(Pgain, 4, 1), // 30
    code_bit!(Pgain, 4, 0), // 29
    code_bit!(Plag, 4, 6), // 28
    code_bit!(Plag, 4, 5), // 27
    code_bit!(Plag, 4, 4), // 26
    code_bit!(Plag, 4, 3), // 25
    code_bit!(Plag, 4, 2), // 24
    code_bit!(Pcb, 1, 3), // 23
    code_bit!(Plag, 4, 1), // 22
    code_bit!(Plag, 4, 0), // 21
    code_bit!(Cbindex, 7, 6), // 20
    code_bit!(Cbindex, 7, 5), // 19
    code_bit!(Cbindex, 7, 4), // 18
    code_bit!(Cbindex, 7, 3), // 17
    code_bit!(Cbindex, 7, 2), // 16
    code_bit!(Pcb, 1, 2), // 15
    code_bit!(Cbindex, 7, 1), // 14
    code_bit!(Cbindex, 7, 0), // 13
    code_bit!(Cbgain, 7, 2), // 12
    code_bit!(Cbgain, 7, 0), // 11
    code_bit!(Cbindex, 8, 6), // 10
    code_bit!(Cbindex, 8, 5), // 9
    code_bit!(Cbindex, 8, 4), // 8
    code_bit!(Pcb, 1, 1), // 7
    code_bit!(Cbindex, 8, 3), // 6
    code_bit!(Cbindex, 8, 2), // 5
    code_bit!(Cbindex, 8, 1), // 4
    code_bit!(Cbindex, 8, 0), // 3
    code_bit!(Cbgain, 8, 2), // 2
    code_bit!(Cbgain, 8, 0), // 1
    code_bit!(Pcb, 1, 0), // 0
];

impl PacketKind for FullPacket {
    ghost rate = { Full };

    ghost each_once = { full };

    #[tactic(auto, unfolding(packet_layout::specs::Layouts::layout))]
    fn code_bit(place: usize) -> Option<CodeBit> {
        code_bit_at(&FULL, place)
    }
}

/// A packet at Rate 1/2.
pub(crate) struct HalfPacket;

// Table A.1.4.7.2-1.
const HALF: [CodeBit; 80] = [
    code_bit!(Lsp, 1, 1), // 79
    code_bit!(Lsp, 1, 0), // 78
    code_bit!(Lsp, 2, 1), // 77
    code_bit!(Lsp, 2, 0), // 76
    code_bit!(Lsp, 3, 1), // 75
    code_bit!(Lsp, 3, 0), // 74
    code_bit!(Lsp, 4, 1), // 73
    code_bit!(Lsp, 4, 0), // 72
    code_bit!(Lsp, 5, 1), // 71
    code_bit!(Lsp, 5, 0), // 70
    code_bit!(Lsp, 6, 1), // 69
    code_bit!(Lsp, 6, 0), // 68
    code_bit!(Lsp, 7, 1), // 67
    code_bit!(Lsp, 7, 0), // 66
    code_bit!(Lsp, 8, 1), // 65
    code_bit!(Lsp, 8, 0), // 64
    code_bit!(Lsp, 9, 1), // 63
    code_bit!(Lsp, 9, 0), // 62
    code_bit!(Lsp, 10, 1), // 61
    code_bit!(Lsp, 10, 0), // 60
    code_bit!(Pgain, 1, 2), // 59
    code_bit!(Pgain, 1, 1), // 58
    code_bit!(Pgain, 1, 0), // 57
    code_bit!(Plag, 1, 6), // 56
    code_bit!(Plag, 1, 5), // 55
    code_bit!(Plag, 1, 4), // 54
    code_bit!(Plag, 1, 3), // 53
    code_bit!(Plag, 1, 2), // 52
    code_bit!(Plag, 1, 1), // 51
    code_bit!(Plag, 1, 0), // 50
    code_bit!(Cbindex, 1, 6), // 49
    code_bit!(Cbindex, 1, 5), // 48
    code_bit!(Cbindex, 1, 4), // 47
    code_bit!(Cbindex, 1, 3), // 46
    code_bit!(Cbindex, 1, 2), // 45
    code_bit!(Cbindex, 1, 1), // 44
    code_bit!(Cbindex, 1, 0), // 43
    code_bit!(Cbgain, 1, 2), // 42
    code_bit!(Cbgain, 1, 1), // 41
    code_bit!(Cbgain, 1, 0), // 40
    code_bit!(Cbindex, 2, 6), // 39
    code_bit!(Cbindex, 2, 5), // 38
    code_bit!(Cbindex, 2, 4), // 37
    code_bit!(Cbindex, 2, 3), // 36
    code_bit!(Cbindex, 2, 2), // 35
    code_bit!(Cbindex, 2, 1), // 34
    code_bit!(Cbindex, 2, 0), // 33
    code_bit!(Cbgain, 2, 2), // 32
    code_bit!(Cbgain, 2, 1), // 31
    code_bit!(Cbgain, 2, 0), // 30
    code_bit!(Pgain, 2, 2), // 29
    code_bit!(Pgain, 2, 1), // 28
    code_bit!(Pgain, 2, 0), // 27
    code_bit!(Plag, 2, 6), // 26
    code_bit!(Plag, 2, 5), // 25
    code_bit!(Plag, 2, 4), // 24
    code_bit!(Plag, 2, 3), // 23
    code_bit!(Plag, 2, 2), // 22
    code_bit!(Plag, 2, 1), // 21
    code_bit!(Plag, 2, 0), // 20
    code_bit!(Cbindex, 3, 6), // 19
    code_bit!(Cbindex, 3, 5), // 18
    code_bit!(Cbindex, 3, 4), // 17
    code_bit!(Cbindex, 3, 3), // 16
    code_bit!(Cbindex, 3, 2), // 15
    code_bit!(Cbindex, 3, 1), // 14
    code_bit!(Cbindex, 3, 0), // 13
    code_bit!(Cbgain, 3, 2), // 12
    code_bit!(Cbgain, 3, 1), // 11
    code_bit!(Cbgain, 3, 0), // 10
    code_bit!(Cbindex, 4, 6), // 9
    code_bit!(Cbindex, 4, 5), // 8
    code_bit!(Cbindex, 4, 4), // 7
    code_bit!(Cbindex, 4, 3), // 6
    code_bit!(Cbindex, 4, 2), // 5
    code_bit!(Cbindex, 4, 1), // 4
    code_bit!(Cbindex, 4, 0), // 3
    code_bit!(Cbgain, 4, 2), // 2
    code_bit!(Cbgain, 4, 1), // 1
    code_bit!(Cbgain, 4, 0), // 0
];

impl PacketKind for HalfPacket {
    ghost rate = { Half };

    ghost each_once = { half };

    #[tactic(auto, unfolding(packet_layout::specs::Layouts::layout))]
    fn code_bit(place: usize) -> Option<CodeBit> {
        code_bit_at(&HALF, place)
    }
}

/// A packet at Rate 1/4.
pub(crate) struct QuarterPacket;

// Table A.1.4.7.3-1.
const QUARTER: [CodeBit; 40] = [
    code_bit!(Lsp, 1, 0), // 39
    code_bit!(Lsp, 2, 0), // 38
    code_bit!(Lsp, 3, 0), // 37
    code_bit!(Lsp, 4, 0), // 36
    code_bit!(Lsp, 5, 0), // 35
    code_bit!(Lsp, 6, 0), // 34
    code_bit!(Lsp, 7, 0), // 33
    code_bit!(Lsp, 8, 0), // 32
    code_bit!(Lsp, 9, 0), // 31
    code_bit!(Lsp, 10, 0), // 30
    code_bit!(Pgain, 1, 2), // 29
    code_bit!(Pgain, 1, 1), // 28
    code_bit!(Pgain, 1, 0), // 27
    code_bit!(Plag, 1, 6), // 26
    code_bit!(Plag, 1, 5), // 25
    code_bit!(Plag, 1, 4), // 24
    code_bit!(Plag, 1, 3), // 23
    code_bit!(Plag, 1, 2), // 22
    code_bit!(Plag, 1, 1), // 21
    code_bit!(Plag, 1, 0), // 20
    code_bit!(Cbindex, 1, 6), // 19
    code_bit!(Cbindex, 1, 5), // 18
    code_bit!(Cbindex, 1, 4), // 17
    code_bit!(Cbindex, 1, 3), // 16
    code_bit!(Cbindex, 1, 2), // 15
    code_bit!(Cbindex, 1, 1), // 14
    code_bit!(Cbindex, 1, 0), // 13
    code_bit!(Cbgain, 1, 2), // 12
    code_bit!(Cbgain, 1, 1), // 11
    code_bit!(Cbgain, 1, 0), // 10
    code_bit!(Cbindex, 2, 6), // 9
    code_bit!(Cbindex, 2, 5), // 8
    code_bit!(Cbindex, 2, 4), // 7
    code_bit!(Cbindex, 2, 3), // 6
    code_bit!(Cbindex, 2, 2), // 5
    code_bit!(Cbindex, 2, 1), // 4
    code_bit!(Cbindex, 2, 0), // 3
    code_bit!(Cbgain, 2, 2), // 2
    code_bit!(Cbgain, 2, 1), // 1
    code_bit!(Cbgain, 2, 0), // 0
];

impl PacketKind for QuarterPacket {
    ghost rate = { Quarter };

    ghost each_once = { quarter };

    #[tactic(auto, unfolding(packet_layout::specs::Layouts::layout))]
    fn code_bit(place: usize) -> Option<CodeBit> {
        code_bit_at(&QUARTER, place)
    }
}

/// A packet at Rate 1/8.
pub(crate) struct EighthPacket;

// Table A.1.4.7.4-1.
const EIGHTH: [CodeBit; 16] = [
    code_bit!(Cbseed, 1, 3), // 15
    code_bit!(Lsp, 1, 0), // 14
    code_bit!(Lsp, 2, 0), // 13
    code_bit!(Lsp, 3, 0), // 12
    code_bit!(Cbseed, 1, 2), // 11
    code_bit!(Lsp, 4, 0), // 10
    code_bit!(Lsp, 5, 0), // 9
    code_bit!(Lsp, 6, 0), // 8
    code_bit!(Cbseed, 1, 1), // 7
    code_bit!(Lsp, 7, 0), // 6
    code_bit!(Lsp, 8, 0), // 5
    code_bit!(Lsp, 9, 0), // 4
    code_bit!(Cbseed, 1, 0), // 3
    code_bit!(Lsp, 10, 0), // 2
    code_bit!(Cbgain, 1, 1), // 1
    code_bit!(Cbgain, 1, 0), // 0
];

impl PacketKind for EighthPacket {
    ghost rate = { Eighth };

    ghost each_once = { eighth };

    #[tactic(auto, unfolding(packet_layout::specs::Layouts::layout))]
    fn code_bit(place: usize) -> Option<CodeBit> {
        code_bit_at(&EIGHTH, place)
    }
}
