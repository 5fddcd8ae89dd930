//! What SQL's equality of keys means for the rows that are written here.
ghost use Rattle.society_rows.specs.KeyLaws.{TextsAreKeys, NumbersAreKeys, NumberedAreKeys, PairsAreKeys, SegmentsAreKeys, SegmentsAreOrdered};

/// Does nothing: it tells a proof that a key in SQL is the key that was written. Texts are equal where their bytes are,
/// whole numbers where they are the same number, segments where they are the same, and a key of two columns where both are. And it
/// tells that SQL orders segments by their places.
pub fn keys_are_values()
    ensures texts { TextsAreKeys }
    ensures numbers { NumbersAreKeys }
    ensures numbered { NumberedAreKeys }
    ensures pairs { PairsAreKeys }
    ensures segments { SegmentsAreKeys }
    ensures ordered { SegmentsAreOrdered }
{}
