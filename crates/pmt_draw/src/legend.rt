//! What the marks mean.
use pmt_pen::Pen;

/// The height of a line of the legend.
const LINE: u64 = 20;

// How many signs stand side by side.
const WIDE: u64 = 3;

// A sign.
#[derive(Clone, Copy)]
struct Sign {
    // What stands in the picture where the sign is in use.
    needle: &'static str,
    // What is drawn of it, around the point 0 0.
    shape: &'static str,
    // What it means.
    words: &'static str,
}

const SIGNS: [Sign; 18] = [
    Sign {
        needle: "class='pending'",
        shape: "<rect class='pending' x='-12' y='-6' width='24' height='12'/>",
        words: "not flushed: a crash may lose it",
    },
    Sign {
        needle: "class='flushed'",
        shape: "<rect class='flushed' x='-12' y='-6' width='24' height='12'/>",
        words: "flushed, not fenced: may be lost",
    },
    Sign {
        needle: "class='safe'",
        shape: "<rect class='safe' x='-12' y='-6' width='24' height='12'/>",
        words: "safe: no crash loses it",
    },
    Sign {
        needle: "class='stored'",
        shape: "<rect class='pending' x='-12' y='-6' width='24' height='12'/><path class='stored' d='M0 -6V6'/>",
        words: "several stores, each from its tick on",
    },
    Sign {
        needle: "class='dot'",
        shape: "<rect class='dot' x='-4' y='-4' width='8' height='8'/>",
        words: "store",
    },
    Sign {
        needle: "class='mark' d=",
        shape: "<path class='mark' d='M-7 -6H7L0 6Z'/>",
        words: "flush",
    },
    Sign {
        needle: "class='wait'",
        shape: "<line class='wait' x1='-12' y1='0' x2='12' y2='0'/>",
        words: "from a flush to its thread's next fence",
    },
    Sign {
        needle: "class='mark under'",
        shape: "<path class='mark' d='M-7 -7H7L0 5Z'/><path class='mark' d='M-7 8H7'/>",
        words: "clflush: complete at once",
    },
    Sign {
        needle: "class='mark fence'",
        shape: "<rect class='mark' x='-3' y='-8' width='6' height='16'/>",
        words: "fence",
    },
    Sign {
        needle: "class='unfenced'",
        shape: "<path class='unfenced' d='M-7 -6H7L0 6Z'/><path class='shout' d='M0 -4V0M0 2V3'/>",
        words: "flush whose fence is missing: add it",
    },
    Sign {
        needle: "class='wait never'",
        shape: "<line class='wait never' x1='-12' y1='0' x2='12' y2='0'/>",
        words: "no fence of its thread in the picture",
    },
    Sign {
        needle: "class='mark dropped",
        shape: "<path class='mark dropped' d='M-13 -6H1L-6 6Z'/><rect class='mark dropped' x='6' y='-8' width='6' height='16'/>",
        words: "hollow: no effect, may be left out",
    },
    Sign {
        needle: "class='mend' ",
        shape: "<path class='mend' d='M-13 -6H1L-6 6Z'/><rect class='mend' x='6' y='-8' width='6' height='16'/>",
        words: "missing: put it in here",
    },
    Sign {
        needle: "class='pass'",
        shape: "<circle class='pass' cx='0' cy='0' r='7'/><path class='tick' d='M-4 0L0 4L4 -4'/>",
        words: "assertion that passes",
    },
    Sign {
        needle: "class='fail'",
        shape: "<circle class='fail' cx='0' cy='0' r='7'/><path class='cross' d='M-4 -4L4 4M4 -4L-4 4'/>",
        words: "assertion that fails",
    },
    Sign {
        needle: "class='crash'",
        shape: "<line class='crash' x1='0' y1='-8' x2='0' y2='8'/>",
        words: "crash: may lose what is not safe there",
    },
    Sign {
        needle: "class='lost-store'",
        shape: "<path class='lost-store' d='M-3 -3L3 3M3 -3L-3 3'/>",
        words: "store that the crash loses",
    },
    Sign {
        needle: "class='gap'",
        shape: "<line class='cut' x1='0' y1='-8' x2='0' y2='8'/>",
        words: "events that are left out",
    },
];

/// The height of the legend of what is drawn.
pub fn legend_height(drawn: &str) -> u64 {
    let mut signs: u64 = 0;
    for sign in &SIGNS {
        if drawn.find(sign.needle).is_some() {
            signs = signs.saturating_add(1);
        }
    }
    LINE.saturating_mul(signs.saturating_add(WIDE - 1) / WIDE)
}

/// Adds the legend: the signs that are in use in what is drawn.
pub fn push_legend(pen: &mut Pen, drawn: &str, left: u64, top: u64) {
    pen.put("<g class='legend'>\n");
    let mut index: u64 = 0;
    for sign in &SIGNS {
        if drawn.find(sign.needle).is_some() {
            let x = left
                .saturating_add(16)
                .saturating_add(300u64.saturating_mul(index % WIDE));
            let y = top.saturating_add(LINE.saturating_mul(index / WIDE));
            pen.fill("<g transform='translate(# #)'>", &[x, y]);
            pen.put(sign.shape);
            pen.put("<text class='tiny' x='20' y='4'>");
            pen.put(sign.words);
            pen.put("</text></g>\n");
            index = index.saturating_add(1);
        }
    }
    pen.put("</g>\n");
}
