// The bytes of a record. Numbers of several bytes have the low byte first.
ghost use Rattle.file_format.specs.FileOf.{grade_bytes};
ghost use Rattle.file_format.specs.Layout.{six_bytes, three_bytes};
ghost use Rattle.std.specs.Prelude.{◌≡◌};

use super::{GradeRecord, SheetRecord};

impl From<[u8; 3]> for SheetRecord {
    ghost from_gives = { λ bytes found. found ≡ three_bytes bytes };

    fn from(bytes: [u8; 3]) -> SheetRecord {
        let [kind, packages, translators] = bytes;
        SheetRecord {
            kind,
            packages,
            translators,
        }
    }
}

impl From<[u8; 6]> for GradeRecord {
    ghost from_gives = { λ bytes found. found ≡ six_bytes bytes };

    fn from(bytes: [u8; 6]) -> GradeRecord {
        let [pkg, translator, c0, c1, c2, c3] = bytes;
        GradeRecord {
            pkg,
            translator,
            code: u32::from_le_bytes([c0, c1, c2, c3]),
        }
    }
}

impl From<GradeRecord> for [u8; 6] {
    ghost from_gives = { λ found bytes. bytes ≡ grade_bytes found.pkg found.translator found.code };

    fn from(found: GradeRecord) -> [u8; 6] {
        let [c0, c1, c2, c3] = found.code.to_le_bytes();
        [found.pkg, found.translator, c0, c1, c2, c3]
    }
}
