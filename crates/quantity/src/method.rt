// Document 01, "Source streams": the methods, and the numbers that stand for them in a sheet.
ghost use Rattle.quantity.specs.Methods.{HasNumber};

#[derive(Clone, Copy, PartialEq, Eq)]
pub enum Method {
    Combustion,
    ProcessEmission,
    CarbonIn,
    CarbonOut,
}

// A number that stands for no method.
#[derive(Clone, Copy, PartialEq, Eq)]
pub struct NoMethod;

impl TryFrom<u64> for Method {
    type Error = NoMethod;

    ghost try_from_gives = { HasNumber };

    fn try_from(number: u64) -> Result<Method, NoMethod> {
        match number {
            1 => Ok(Method::Combustion),
            2 => Ok(Method::ProcessEmission),
            3 => Ok(Method::CarbonIn),
            4 => Ok(Method::CarbonOut),
            _ => Err(NoMethod),
        }
    }
}
