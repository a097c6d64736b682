// The file of the small job E, for programs.
#![tactic(auto)]

use file_blocks::plan::Head;
use slices::sizes::Sizes;
use writer_checks::Tables;

// "E: K 2; offers "00412" 500 owner 0, "77" 1250 owner 1; grocer owners 1, 0; tallies (grocer, box, code, count):
// (0,0,"412",3) (1,0,"077",2) (0,1,"77",−1) (0,1,"0412",4)." Of cycle 0, with one price list, every issuer, bag and revision 0. A code
// has its number of digits in front, and 0 behind them.
pub fn small_file() -> [u8; 2048] {
    let none: &[u16] = &[0, 0, 0, 0];
    let mut f = [0u8; 2048];
    let tables = Tables {
        head: Head {
            sizes: Sizes {
                boxes: 2,
                grocers: 2,
                offers: 2,
                tallies: 4,
                lists: 0,
            },
            cycle: 0,
        },
        price: &[500, 1_250],
        offer_owner: &[0, 1],
        offer_code: b"\x0500412\0\0\0\0\0\x0277\0\0\0\0\0\0\0\0",
        offer_issuer: none,
        grocer_owner: &[1, 0],
        tally_grocer: &[0, 1, 0, 0],
        tally_box: &[0, 0, 1, 1],
        tally_code: b"\x03412\0\0\0\0\0\0\0\x03077\0\0\0\0\0\0\0\x0277\0\0\0\0\0\0\0\0\x040412\0\0\0\0\0\0",
        tally_count: &[3i32, 2i32, -1i32, 4i32],
        tally_issuer: none,
        tally_bag: none,
        tally_revision: none,
    };
    let _ = writer::write(&tables, &mut f);
    f
}
