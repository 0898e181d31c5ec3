// The classes of quantization of Layer II: ISO/IEC 11172-3, Table B.4.
#![tactic(auto)]

ghost use Rattle.std.specs.Prelude.{◌≡◌, ◌<◌};
ghost use Rattle.bitalloc.specs.Classes.{class_at, class_of, index_of, lookup_of};

// A row of Table B.4, with the number of bits of one sample. The table's samples per codeword are left out: three where
// they are grouped, else one.
#[derive(Clone, Copy, Debug, Default, PartialEq)]
pub struct QuantClass {
    pub nb_steps: u32,
    pub c: f64,
    pub d: f64,
    pub grouping: bool,
    pub bits_per_sample: u32,
    pub bits_per_codeword: u32,
}

pub const CLASS_COUNT: usize = 17;

static QUANT_CLASSES: [QuantClass; CLASS_COUNT] = [
    QuantClass {
        nb_steps: 3,
        c: 1.333_333_333_33,
        d: 0.500_000_000_00,
        grouping: true,
        bits_per_sample: 2,
        bits_per_codeword: 5,
    },
    QuantClass {
        nb_steps: 5,
        c: 1.600_000_000_00,
        d: 0.500_000_000_00,
        grouping: true,
        bits_per_sample: 3,
        bits_per_codeword: 7,
    },
    QuantClass {
        nb_steps: 7,
        c: 1.142_857_142_86,
        d: 0.250_000_000_00,
        grouping: false,
        bits_per_sample: 3,
        bits_per_codeword: 3,
    },
    QuantClass {
        nb_steps: 9,
        c: 1.777_777_777_77,
        d: 0.500_000_000_00,
        grouping: true,
        bits_per_sample: 4,
        bits_per_codeword: 10,
    },
    QuantClass {
        nb_steps: 15,
        c: 1.066_666_666_66,
        d: 0.125_000_000_00,
        grouping: false,
        bits_per_sample: 4,
        bits_per_codeword: 4,
    },
    QuantClass {
        nb_steps: 31,
        c: 1.032_258_064_52,
        d: 0.062_500_000_00,
        grouping: false,
        bits_per_sample: 5,
        bits_per_codeword: 5,
    },
    QuantClass {
        nb_steps: 63,
        c: 1.015_873_015_87,
        d: 0.031_250_000_00,
        grouping: false,
        bits_per_sample: 6,
        bits_per_codeword: 6,
    },
    QuantClass {
        nb_steps: 127,
        c: 1.007_874_015_75,
        d: 0.015_625_000_00,
        grouping: false,
        bits_per_sample: 7,
        bits_per_codeword: 7,
    },
    QuantClass {
        nb_steps: 255,
        c: 1.003_921_568_63,
        d: 0.007_812_500_00,
        grouping: false,
        bits_per_sample: 8,
        bits_per_codeword: 8,
    },
    QuantClass {
        nb_steps: 511,
        c: 1.001_956_947_16,
        d: 0.003_906_250_00,
        grouping: false,
        bits_per_sample: 9,
        bits_per_codeword: 9,
    },
    QuantClass {
        nb_steps: 1023,
        c: 1.000_977_517_11,
        d: 0.001_953_125_00,
        grouping: false,
        bits_per_sample: 10,
        bits_per_codeword: 10,
    },
    QuantClass {
        nb_steps: 2047,
        c: 1.000_488_519_79,
        d: 0.000_976_562_50,
        grouping: false,
        bits_per_sample: 11,
        bits_per_codeword: 11,
    },
    QuantClass {
        nb_steps: 4095,
        c: 1.000_244_200_24,
        d: 0.000_488_281_25,
        grouping: false,
        bits_per_sample: 12,
        bits_per_codeword: 12,
    },
    QuantClass {
        nb_steps: 8191,
        c: 1.000_122_085_22,
        d: 0.000_244_140_63,
        grouping: false,
        bits_per_sample: 13,
        bits_per_codeword: 13,
    },
    QuantClass {
        nb_steps: 16383,
        c: 1.000_061_038_88,
        d: 0.000_122_070_31,
        grouping: false,
        bits_per_sample: 14,
        bits_per_codeword: 14,
    },
    QuantClass {
        nb_steps: 32767,
        c: 1.000_030_518_51,
        d: 0.000_061_035_16,
        grouping: false,
        bits_per_sample: 15,
        bits_per_codeword: 15,
    },
    QuantClass {
        nb_steps: 65535,
        c: 1.000_015_259_02,
        d: 0.000_030_517_58,
        grouping: false,
        bits_per_sample: 16,
        bits_per_codeword: 16,
    },
];

// A class by its place in the table.
pub fn class_at(index: usize) -> QuantClass
    requires { index < 17 }
    ensures { result ≡ class_at index }
{
    QUANT_CLASSES[index]
}

// The place of the class that has this number of steps.
pub fn class_index(nb_steps: u32) -> Option<usize>
    ensures { result ≡ index_of nb_steps }
{
    QUANT_CLASSES
        .iter()
        .position(|class| class.nb_steps == nb_steps)
}

// The class that has this number of steps.
pub fn class_of_quantization(nb_steps: u32) -> Option<QuantClass>
    ensures { result ≡ lookup_of nb_steps }
{
    class_index(nb_steps).map(class_at)
}

// The class that has this number of steps, or a row of zeros, since the functions for C answer 0 there and a place of no class has codes of no bits.
pub fn class_or_zero(nb_steps: u32) -> QuantClass
    ensures { result ≡ class_of nb_steps }
{
    class_of_quantization(nb_steps).unwrap_or_default()
}
