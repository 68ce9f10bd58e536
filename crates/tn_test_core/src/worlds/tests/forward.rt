//! Forward masks: a half-typed line in two parts at two ends.

use super::worlds::print_all;

const SCRIPTS: &[(&str, &str)] = &[
    // A half-typed line lies at both ends: the client edits, and a comma is in its mask.
    (
        "settle\nwish local\nsettle\nmark\nmask 000000000008\nsettle\n\
         key 612c7f7f620d\nflight\nsettle\ntake\n",
        "mark true\nto-server 612cfff7fff7620d0a\nto-client -\ntext 620a\n",
    ),
    (
        "settle\nwish local\nsettle\nmark\nmask 000000000008\nsettle\n\
         key 612c04\nflight\nsettle\ntake\n",
        "mark true\nto-server 612cffec\nto-client -\ntext 612c\n",
    ),
    (
        "settle\nwish local\nsettle\nmark\nmask 000000000008\nsettle\n\
         key 612c6215630d\nflight\nsettle\ntake\n",
        "mark true\nto-server 612cfff8630d0a\nto-client -\ntext 630a\n",
    ),
    (
        "settle\nwish local\nsettle\nmark\nmask 000000000008\nsettle\n\
         key 612c030d\nflight\nsettle\ntake\ntake\n",
        "mark true\nto-server 612cfff40d0a\nto-client -\nsignal int\ntext 612c0a\n",
    ),
    // A full line counts both parts.
    (
        "settle\nwish local\nsettle\nmark\nmask 000000000008\nsettle\n\
         key |254*2c|627f0d\nflight\nsettle\ntake\n",
        "mark true\nto-server |254*2c|fff70d0a\nto-client -\ntext |253*2c|0a\n",
    ),
    // A mask is sent and dropped.
    (
        "settle\nmask 000000000008\nflight\nsettle\nmask 00\nflight\nmask off\nflight\n",
        "to-server -\nto-client fffa22fd02000000000008fff0\n\
         to-server -\nto-client fffa22fd02fff0\n\
         to-server -\nto-client fffa22fd02fff0fffa22fe02fff0\n",
    ),
    (
        "settle\nmask 000000000008\nto-client 13\nflight\nsettle\nmask off\nto-client 9\nflight\n",
        "to-server fffa22fb02fff0\nto-client -\nto-server fffa22fc02fff0\nto-client -\n",
    ),
    (
        "settle\nserver-stops\nmask 08\nflight\n",
        "to-server -\nto-client -\n",
    ),
];

#[test]
fn a_mask_parts_a_half_line(rt: HostRuntime) {
    print_all(&rt, rt.alloc(), SCRIPTS);
}
