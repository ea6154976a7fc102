// What stands at the pins of a cell.
ghost use Rattle.std.specs.Prelude.{◌≡◌, ℕ};
ghost use Rattle.cells.specs.Pins.{all_pins, at_pin, with_pin};

// A field for each of four pins, and no array: who passes an array of a type parameter on has to show that it fits the
// memory, which code over any kind of time cannot. So there is no slice, and pins are walked by their numbers.
#[derive(Clone, Copy)]
pub struct Pins<X> {
    pub zero: X,
    pub one: X,
    pub two: X,
    pub three: X,
}

impl<X: Copy> Pins<X> {
    // The same at every pin.
    pub fn all(thing: X) -> Pins<X>
        ensures { result ≡ all_pins thing }
    {
        Pins {
            zero: thing,
            one: thing,
            two: thing,
            three: thing,
        }
    }

    // What stands at a pin; a number past 3 means pin 3.
    pub fn get(self, pin: usize) -> X
        ensures { result ≡ at_pin self pin }
    {
        match pin {
            0 => self.zero,
            1 => self.one,
            2 => self.two,
            _ => self.three,
        }
    }

    // The same but for one pin; a number past 3 means pin 3.
    pub fn with(self, pin: usize, new: X) -> Pins<X>
        ensures { result ≡ with_pin self pin new }
    {
        match pin {
            0 => Pins { zero: new, ..self },
            1 => Pins { one: new, ..self },
            2 => Pins { two: new, ..self },
            _ => Pins { three: new, ..self },
        }
    }

    // What a function makes of what stands at each pin.
    pub fn map<Y: Copy, F: Fn(X) -> Y>(self, f: F) -> Pins<Y>
        requires { F.IsAlwaysCallable f }
        ensures { (by : X → Y) → ((x : X) (y : Y) → F.post f x y → y ≡ by x) → (pin : ℕ) → at_pin result pin ≡ by (at_pin self pin) }
    {
        Pins {
            zero: f(self.zero),
            one: f(self.one),
            two: f(self.two),
            three: f(self.three),
        }
    }
}
