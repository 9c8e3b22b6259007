ghost use Rattle.bit_stream.specs.Laws.{BitOfBytes, BitsComeBack, NumberComesBack};

/// The law that bit `k` of bytes is bit `k mod 8` of byte `k div 8`, the least bit being bit 0.
pub fn bit_of_bytes()
    ensures { BitOfBytes }
{}

/// The law that a number which was written is read again, whatever follows it.
pub fn number_comes_back()
    ensures { NumberComesBack }
{}

/// The law that the bytes of a finished buffer have the bits that were put, and then fewer than
/// eight zero bits.
pub fn bits_come_back()
    ensures { BitsComeBack }
{}
