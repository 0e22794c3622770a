// The power of a card, once it is used no more.
use crate::did::Did;
use crate::hosts::switch_off;
use c_host::WayRecord;
use std::marker::Brand;

/// Takes the card's power, where that can be switched.
#[unsafe(no_mangle)]
pub extern "C" fn kelifandro_close_by(way: &WayRecord) {
    switch_off::<Brand>(way, &mut Did::new());
}
