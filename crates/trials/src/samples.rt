// Blocks for the trials.

// The header of document 01's font A, with this weight: set 277, fixed, pitch 120, height 200, style 0, face 3, portrait. It has 64 bytes by its
// descriptor size; the four after them are not looked at.
pub fn header(weight: u8) -> [u8; 68] {
    let mut h = [0u8; 68];
    h[1] = 64;
    h[7] = 35;
    h[9] = 30;
    h[11] = 50;
    h[14] = 1;
    h[15] = 21;
    h[17] = 120;
    h[19] = 200;
    h[24] = weight;
    h[25] = 3;
    h
}

// W-206: the same font with a header of format 20, of this resolution; its pitch and height are those of 600 dpi, 240 and 400.
pub fn resolved(x: u16, y: u16) -> [u8; 68] {
    let mut h = header(0);
    h[1] = 68;
    h[2] = 20;
    h[17] = 240;
    h[18] = 1;
    h[19] = 144;
    let ([x_high, x_low], [y_high, y_low]) = (x.to_be_bytes(), y.to_be_bytes());
    h[64..].copy_from_slice(&[x_high, x_low, y_high, y_low]);
    h
}

// A first block with no data, portrait.
pub fn descriptor(class: u8, width: u16, height: u16) -> [u8; 16] {
    let mut d = [0u8; 16];
    d[0] = 4;
    d[2] = 14;
    d[3] = class;
    d[10..12].copy_from_slice(&width.to_be_bytes());
    d[12..14].copy_from_slice(&height.to_be_bytes());
    d
}
